// The survey's one pass: the grammar's machine and the lowest fault together.
ghost use Rattle.std.specs.Prelude.{◌≡◌, true, cond, ◌-◌, ◌*◌, ◌<◌, ◌≤◌, T, eqb, length};
ghost use Rattle.text.specs.Forms.{form_of, found};
ghost use Rattle.levels.proofs.Steps.{arity_in, fault_closed};
ghost use Rattle.survey.specs.Window.{span, stored};
ghost use Rattle.survey.specs.Standing.{Reads, refusal, level_past, fault_past, gone_on, lowest, Opens, opened_by, taken, is_bracketed, left_by, parted_by, last_fault, Closing, Ready, Standing, Advanced};

use crate::facts::{name_of, own_fault};
use crate::look::{Seen, look};
use crate::refill::{opened_kind, opened_mode, refill};
use crate::window::{SPAN, Window};
use levels::{Read, end_faults, fresh, is_fault_behind, level_sort, lowered, sort_behind};
use names::Names;
use text::{Fault, Level, Run, Sort};
use tokens::{END, is_due, run_end};

// Where the survey stands: a trace, the lowest level that the window is for, the sort of the operand in progress and the fault that was
// found; at its end the fault is what was found in all.
#[derive(Clone, Copy)]
pub struct State {
    pub count: usize,
    pub at: usize,
    pub due: bool,
    pub mode: usize,
    pub depth: usize,
    pub low: usize,
    pub name: usize,
    pub sort: Sort,
    pub level: Level,
    pub fault: Option<Fault>,
    pub ended: bool,
}

// The survey ends with this fault.
fn ended(s: State, fault: Option<Fault>) -> State
    ensures { (result.ended ≡ true) × (result.fault ≡ fault) }
{
    State {
        fault,
        ended: true,
        ..s
    }
}

// The text is refused at this byte.
fn refused(s: State, place: usize) -> State
    ensures { (result.ended ≡ true) × (result.fault ≡ refusal place) }
{
    ended(s, Some(Fault { number: 23, place }))
}

// The level behind a token that leads to a mode or opens a level.
#[tactic(auto, unfolding(crate::specs::Standing::level_past))]
fn level_behind(s: State, t: Seen) -> Level
    requires { t.kind < 33 }
    ensures { result ≡ level_past s t }
{
    Read::new(t.kind, s.mode).level(t.behind, s.level)
}

// The fault behind such a token, which may have a fault of its own.
#[tactic(auto, unfolding(crate::specs::Standing::fault_past))]
fn fault_behind(s: State, t: Seen, own: Option<u32>) -> Option<Fault>
    requires { t.kind < 33 }
    ensures { result ≡ fault_past own s t }
{
    let read = Read::new(t.kind, s.mode);
    read.fault(t.begin, own, s.level, s.sort, s.name, s.fault)
}

// A token that opens and closes nothing.
#[tactic(auto, unfolding(crate::specs::Standing::gone_on))]
fn went(text: &[u8], s: State, t: Seen, own: Option<u32>) -> State
    requires { Reads text.now t.kind t.begin t.end × (s.count < t.end) × (0 < t.act) }
    ensures { result ≡ gone_on text.now own s t }
{
    let kind = t.kind;
    let level = level_behind(s, t);
    let fault = fault_behind(s, t, own);
    State {
        count: s.count + 1,
        at: t.end,
        due: is_due(kind),
        mode: t.act - 1,
        name: name_of(text, kind, t.begin, t.end, s.name),
        sort: Read::new(kind, s.mode).sort(s.sort),
        level,
        fault,
        ended: false,
        ..s
    }
}

// The lowest level for the window when one more is open.
#[tactic(auto, unfolding(crate::specs::Standing::lowest))]
fn lowest(depth: usize, low: usize) -> usize
    requires { low ≤ depth }
    ensures { result ≡ lowest depth low }
{
    if depth - low < SPAN { low } else { low + 1 }
}

// A token that opens a level.
#[tactic(auto, unfolding(crate::specs::Standing::opened_by))]
fn entered(s: State, t: Seen, own: Option<u32>, window: &mut Window) -> State
    requires { Opens s t }
    ensures { (result ≡ opened_by own s t) × (window.new.levels ≡ stored window.old.levels s.depth (level_past s t)) }
{
    let depth = s.depth;
    let fault = fault_behind(s, t, own);
    window.store(depth, level_behind(s, t));
    State {
        count: s.count + 1,
        at: t.end,
        due: is_due(t.kind),
        mode: opened_mode(t.act),
        depth: depth + 1,
        low: lowest(depth, s.low),
        level: fresh(opened_kind(t.act, s.name), t.behind),
        fault,
        ended: false,
        ..s
    }
}

// Is a token taken that does this in a level of this kind? `)` in a group or a call, `]` in a predicate, `,` in a call.
#[tactic(auto, unfolding(crate::specs::Standing::taken))]
fn is_taken(act: usize, kind: usize) -> bool
    ensures { result ≡ taken act kind }
{
    match act {
        0 => false,
        1..=17 => true,
        18 => kind == 1 || 4 <= kind,
        19 => kind == 2,
        _ => 4 <= kind,
    }
}

// The lowest level for a window that is filled again.
fn refill_from(depth: usize) -> usize
    ensures { result ≡ depth - span }
{
    depth.saturating_sub(SPAN)
}

// The window holds the level around the innermost one: it is filled again if it ran empty.
fn ready(text: &[u8], count: usize, depth: usize, low: usize, window: &mut Window) -> usize
    requires { Closing text.now count depth low window.old.levels }
    ensures { Ready text.now count depth result window.new.levels }
{
    if low < depth {
        return low;
    }
    let from = refill_from(depth);
    refill(text, count, window, from, from + SPAN);
    from
}

// How many arguments a level holds that closes: `)` right behind the name and `(` of a function closes none.
fn arity_of(mode: usize) -> usize
    ensures { result ≡ arity_in mode }
{
    if mode == 1 { 0 } else { 1 }
}

// The fault behind a level that closes; outer is the level around.
fn fault_closed(s: State, outer: Level) -> Option<Fault>
    ensures { result ≡ fault_closed s.mode s.level outer s.sort s.fault }
{
    let level = s.level;
    let sort = s.sort;
    let fault = s.fault;
    let arity = arity_of(s.mode);
    let wrong = is_fault_behind(level.kind, arity, level_sort(level, sort));
    if arity == 0 {
        return lowered(wrong, outer.m, fault);
    }
    lowered(wrong, outer.m, end_faults(level, sort, fault))
}

// A token that closes a level.
#[tactic(auto, unfolding(crate::specs::Standing::left_by))]
fn left(s: State, t: Seen, low: usize, outer: Level) -> State
    requires { T (is_bracketed s.level.kind) × (s.count < t.end) × (0 < s.depth) }
    ensures { result ≡ left_by s t low outer }
{
    let level = s.level;
    let sort = s.sort;
    let inner = level_sort(level, sort);
    let fault = fault_closed(s, outer);
    State {
        count: s.count + 1,
        at: t.end,
        due: is_due(t.kind),
        mode: 13,
        depth: s.depth - 1,
        low,
        sort: sort_behind(level.kind, arity_of(s.mode), inner),
        level: outer,
        fault,
        ended: false,
        ..s
    }
}

// `,`.
#[tactic(auto, unfolding(crate::specs::Standing::parted_by))]
fn parted(s: State, t: Seen, low: usize, outer: Level) -> State
    requires { s.count < t.end }
    ensures { result ≡ parted_by s t low outer }
{
    State {
        count: s.count + 1,
        at: t.end,
        due: is_due(t.kind),
        mode: 0,
        low,
        level: fresh(9, t.behind),
        fault: lowered(true, outer.m, end_faults(s.level, s.sort, s.fault)),
        ended: false,
        ..s
    }
}

// A token that closes a level or parts two arguments.
fn closed(s: State, t: Seen, low: usize, outer: Level) -> State
    requires { T (is_bracketed s.level.kind) × (s.count < t.end) × (0 < s.depth) }
    ensures { result ≡ cond (eqb t.act 20) (parted_by s t low outer) (left_by s t low outer) }
{
    if t.act == 20 {
        return parted(s, t, low, outer);
    }
    left(s, t, low, outer)
}

// The end of a text of this length.
#[tactic(auto, unfolding(crate::specs::Standing::last_fault))]
fn finished(length: usize, s: State) -> State
    ensures { (result.ended ≡ true) × (result.fault ≡ last_fault length s) }
{
    let mode = s.mode;
    let whole = mode == 3 || 12 <= mode;
    if whole && s.depth == 0 {
        let level = s.level;
        let sort = s.sort;
        let fault = s.fault;
        return ended(s, end_faults(level, sort, fault));
    }
    refused(s, length)
}

// One token, or the end of the text.
fn advanced(text: &[u8], names: &Names, s: State, window: &mut Window) -> State
    requires { Standing text.now names.now.list.now window.old.levels s }
    ensures { Advanced text.now names.now.list.now window.new.levels s.count result }
{
    let t = look(text, s.at, s.due, s.mode);
    let kind = t.kind;
    if kind == END {
        return finished(text.len(), s);
    }
    let act = t.act;
    let begin = t.begin;
    let level = s.level;
    if !is_taken(act, level.kind) {
        return refused(s, begin);
    }
    if act < 18 {
        let own = own_fault(text, names, kind, begin, t.end);
        if act < 15 {
            return went(text, s, t, own);
        }
        return entered(s, t, own, window);
    }
    let low = ready(text, s.count, s.depth, s.low, window);
    let outer = window.load(s.depth - 1);
    closed(s, t, low, outer)
}

// What is found in a text: 23 with the byte at which it is refused, or its lowest fault, if it has one.
pub fn survey_text(text: &[u8], names: &Names) -> Option<Fault>
    ensures { result ≡ found (form_of text.now) text.now names.now.list.now }
{
    let mut window = Window::new();
    let mut s = State {
        count: 0,
        at: 0,
        due: false,
        mode: 0,
        depth: 0,
        low: 0,
        name: 0,
        sort: Sort::Unheld,
        level: fresh(0, run_end(Run::Spaces, text, 0)),
        fault: None,
        ended: false,
    };
    // Until the survey has ended: it counts no index.
    while !s.ended {
        s = advanced(text, names, s, &mut window);
    }
    s.fault
}
