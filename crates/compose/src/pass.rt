// The pass over the tokens of a text.
ghost use Rattle.std.specs.Prelude.{◌≡◌, ℕ, ◌+◌, ◌<◌, length, replicate, ltb};
ghost use Rattle.text.specs.Tokens.{class_of};
ghost use Rattle.text.specs.Limited.{source, place};
ghost use Rattle.text.specs.Composing.{compose_token};
ghost use Rattle.compose.specs.Standing.{row_room, op_room, open_room, value_room, Countable, Read};
ghost use Rattle.compose.specs.Deals.{Roomy};
ghost use Rattle.compose.specs.Words.{Plain, Spelled};
ghost use Rattle.compose.specs.Passes.{Passes, nothing_read};

use crate::ops::CHILD;
use crate::read::read_token;
use crate::words::{number_value, word_number};
use crate::{Bench, Hand, Passed, Stack, State};
use names::Names;
use text::Sort;
use tokens::{Next, is_due, next_token};

// Nothing was read: the frame at the bottom stands for the whole text.
#[tactic(auto, unfolding(crate::specs::Passes::nothing_read))]
fn start() -> State
    ensures { result ≡ nothing_read }
{
    State {
        mode: 0,
        axis: CHILD,
        literals: 0,
        deepest: 0,
        bench: Bench {
            hand: Hand {
                link: 0,
                sort: Sort::Unheld,
                rows: 0,
            },
            height: 1,
        },
    }
}

// Are more rows committed than a path may have, with the frame at the bottom?
fn is_full(state: State) -> bool
    requires { (state.bench.hand.rows < 1000) × (state.bench.height < 1000) }
    ensures { result ≡ ltb 257 (state.bench.hand.rows + state.bench.height) }
{
    257 < state.bench.hand.rows + state.bench.height
}

// The state behind the next token.
fn read_next(
    text: &[u8],
    names: &Names,
    next: Next,
    state: State,
    rows: &mut [u32],
    frames: &mut Stack,
    values: &mut [f64],
) -> State
    requires { Spelled text.now names.now.list.now next.kind next.begin next.end
        × (next.kind < 33) × (state.mode < 14) × Roomy 514 state.bench rows.old × (state.literals < value_room)
        × (length values.old ≡ value_room) × Countable state.bench.height frames.old.opens }
    ensures { (result.mode < 14) × ((i : ℕ) → place (source text.now names.now.list.now) i ≡ next.begin
        → Read state rows.old frames.old.ops frames.old.opens values.old
        (λ w. compose_token (source text.now names.now.list.now) w i (class_of next.kind)) result
        rows.new frames.new.ops frames.new.opens values.new 4) }
{
    let kind = next.kind;
    let number = word_number(text, names, kind, next.begin, next.end);
    let value = number_value(text, names, kind, next.begin, next.end);
    read_token(kind, number, value, state, rows, frames, values)
}

// All tokens, up to the first behind which too many rows are committed.
pub fn pass_over(
    text: &[u8],
    names: &Names,
    rows: &mut [u32],
    frames: &mut Stack,
    values: &mut [f64],
) -> Passed
    requires { Plain text.now names.now.list.now × (length rows.old ≡ row_room)
        × (frames.old.ops ≡ replicate op_room 0) × (frames.old.opens ≡ replicate open_room 0) × (length values.old ≡ value_room) }
    ensures { Passes text.now names.now.list.now result rows.new frames.new.ops frames.new.opens values.new }
{
    let mut state = start();
    let mut next = next_token(text, 0, false);
    // Until the tokens end: it counts no index.
    while next.kind < 33 {
        state = read_next(text, names, next, state, rows, frames, values);
        if is_full(state) {
            return Passed { full: true, state };
        }
        next = next_token(text, next.end, is_due(next.kind));
    }
    Passed { full: false, state }
}
