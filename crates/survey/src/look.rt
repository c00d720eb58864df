// The next token of a reading, with what it does in the mode.
ghost use Rattle.std.specs.Prelude.{◌≡◌, ◌<◌, ◌≤◌, length};
ghost use Rattle.survey.specs.Looking.{Sees};

use modes::act_at;
use text::Run;
use tokens::{next_token, run_end};

// A token: its class (34 at the end of the text), its first byte, the byte behind it and where the next one begins, and what it does: 0 is a
// refusal.
#[derive(Clone, Copy)]
pub struct Seen {
    pub kind: usize,
    pub begin: usize,
    pub end: usize,
    pub behind: usize,
    pub act: usize,
}

pub fn look(text: &[u8], at: usize, due: bool, mode: usize) -> Seen
    requires { (at ≤ length text.now) × (mode < 14) }
    ensures { Sees text.now at due mode result }
{
    let token = next_token(text, at, due);
    let kind = token.kind;
    let begin = token.begin;
    let end = token.end;
    if kind < 33 {
        let act = act_at(kind, mode);
        let behind = run_end(Run::Spaces, text, end);
        return Seen {
            kind,
            begin,
            end,
            behind,
            act,
        };
    }
    Seen {
        kind,
        begin,
        end: begin,
        behind: begin,
        act: 0,
    }
}
