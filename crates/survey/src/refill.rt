// Reading a text again for the levels around the innermost one, which the window had forgotten.
ghost use Rattle.std.specs.Prelude.{◌≡◌, cond, ◌+◌, ◌*◌, ◌<◌, ◌≤◌, eqb, length};
ghost use Rattle.text.specs.Tokens.{tokens};
ghost use Rattle.survey.specs.Window.{span};
ghost use Rattle.survey.specs.Standing.{opened_kind, Goes, Traced, Follows, Refilled};

use crate::facts::name_of;
use crate::look::{Seen, look};
use crate::window::Window;
use levels::{Read, fresh};
use text::{Level, Run};
use tokens::{is_due, run_end};

// Where a reading stands: behind how many tokens and behind which byte, whether an operator is due, the mode, how many brackets are open,
// what the last name before a `(` was, and the innermost level, if the window is for it.
#[derive(Clone, Copy)]
pub struct Trace {
    pub count: usize,
    pub at: usize,
    pub due: bool,
    pub mode: usize,
    pub depth: usize,
    pub name: usize,
    pub level: Level,
}

// The kind of the level that an act opens.
pub fn opened_kind(act: usize, name: usize) -> usize
    requires { act ≡ 16 → name < 6 }
    ensures { result ≡ opened_kind act name }
{
    match act {
        15 => 1,
        16 => 4 + name,
        _ => 2,
    }
}

// The mode in the level that an act opens.
pub fn opened_mode(act: usize) -> usize
    ensures { result ≡ cond (eqb act 16) 1 0 }
{
    if act == 16 { 1 } else { 0 }
}

// A token that opens and closes nothing.
fn go_on(text: &[u8], t: Trace, s: Seen, window: &Window, lo: usize, hi: usize) -> Trace
    requires { Follows text.now window.now.levels lo hi t s × (s.act < 15) }
    ensures { Traced text.now window.now.levels lo hi result × (result.count ≡ t.count + 1) }
{
    let kind = s.kind;
    Trace {
        count: t.count + 1,
        at: s.end,
        due: is_due(kind),
        mode: s.act - 1,
        name: name_of(text, kind, s.begin, s.end, t.name),
        level: Read::new(kind, t.mode).level(s.behind, t.level),
        ..t
    }
}

// A token that opens a level: the one around it is kept, if the window is for it.
fn open(text: &[u8], t: Trace, s: Seen, window: &mut Window, lo: usize, hi: usize) -> Trace
    requires { Follows text.now window.old.levels lo hi t s × (15 ≤ s.act) × (s.act < 18) }
    ensures { Traced text.now window.new.levels lo hi result × (result.count ≡ t.count + 1) }
{
    let kind = s.kind;
    let behind = s.behind;
    let left = Read::new(kind, t.mode).level(behind, t.level);
    window.keep(t.depth, lo, hi, left);
    Trace {
        count: t.count + 1,
        at: s.end,
        due: is_due(kind),
        mode: opened_mode(s.act),
        depth: t.depth + 1,
        level: fresh(opened_kind(s.act, t.name), behind),
        ..t
    }
}

// `,`, behind which another argument begins.
fn part(text: &[u8], t: Trace, s: Seen, window: &Window, lo: usize, hi: usize) -> Trace
    requires { Follows text.now window.now.levels lo hi t s × (s.act ≡ 20) }
    ensures { Traced text.now window.now.levels lo hi result × (result.count ≡ t.count + 1) }
{
    Trace {
        count: t.count + 1,
        at: s.end,
        due: false,
        mode: 0,
        level: fresh(9, s.behind),
        ..t
    }
}

// A token that closes a level: the one around it is taken up again, if the window is for it.
fn close(text: &[u8], t: Trace, s: Seen, window: &Window, lo: usize, hi: usize) -> Trace
    requires { Follows text.now window.now.levels lo hi t s × (18 ≤ s.act) × (s.act < 20) }
    ensures { Traced text.now window.now.levels lo hi result × (result.count ≡ t.count + 1) }
{
    let depth = t.depth - 1;
    Trace {
        count: t.count + 1,
        at: s.end,
        due: true,
        mode: 13,
        depth,
        level: window.recall(depth, lo, hi, t.level),
        ..t
    }
}

// One token more, which is known to be taken.
fn follow(text: &[u8], t: Trace, window: &mut Window, lo: usize, hi: usize) -> Trace
    requires { Traced text.now window.old.levels lo hi t × Goes text.now (t.count + 1) × (t.count < length (tokens text.now)) }
    ensures { Traced text.now window.new.levels lo hi result × (result.count ≡ t.count + 1) }
{
    let s = look(text, t.at, t.due, t.mode);
    let act = s.act;
    if act < 15 {
        return go_on(text, t, s, window, lo, hi);
    }
    if act < 18 {
        return open(text, t, s, window, lo, hi);
    }
    if act == 20 {
        return part(text, t, s, window, lo, hi);
    }
    close(text, t, s, window, lo, hi)
}

// Reads the first tokens again, so many as count says: the window then holds the levels from lo to before hi.
pub fn refill(text: &[u8], count: usize, window: &mut Window, lo: usize, hi: usize)
    requires { Goes text.now count × (count ≤ length (tokens text.now)) × (hi ≤ lo + span) }
    ensures { Refilled text.now count window.new.levels lo hi }
{
    let mut t = Trace {
        count: 0,
        at: 0,
        due: false,
        mode: 0,
        depth: 0,
        name: 0,
        level: fresh(0, run_end(Run::Spaces, text, 0)),
    };
    for _ in 0..count {
        t = follow(text, t, window, lo, hi);
    }
}
