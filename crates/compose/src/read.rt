// A token of any class, with its number and its value.
ghost use Rattle.std.specs.Prelude.{◌≡◌, ℕ, ◌-◌, ◌<◌, length};
ghost use Rattle.text.specs.Tokens.{class_of};
ghost use Rattle.text.specs.Limited.{Source, place, value_at};
ghost use Rattle.text.specs.Composing.{compose_token};
ghost use Rattle.compose.specs.Standing.{value_room, Countable, Read, word_number};
ghost use Rattle.compose.specs.Deals.{Roomy, of_desk};

use crate::deal::desk_token;
use crate::kinds::{
    BAR, CLOSING_SQUARE, COLONS, COMMA, FUNCTION_NAME, LITERAL, NUMBER, OPENING, SLASH, VARIABLE,
};
use crate::mode::next_mode;
use crate::steps::{number_token, slash_token, step_token};
use crate::{Stack, State};

// Does a token of this class change the desk alone?
#[tactic(auto, unfolding(crate::specs::Deals::of_desk))]
fn is_desk(kind: usize) -> bool
    ensures { result ≡ of_desk kind }
{
    matches!(
        kind,
        OPENING..=CLOSING_SQUARE | COMMA | COLONS | FUNCTION_NAME | LITERAL | VARIABLE | BAR..
    )
}

// The state behind a token of this class.
pub fn read_token(
    kind: usize,
    number: u32,
    value: f64,
    state: State,
    rows: &mut [u32],
    frames: &mut Stack,
    values: &mut [f64],
) -> State
    requires { (kind < 33) × (state.mode < 14) × Roomy 514 state.bench rows.old × (state.literals < value_room)
        × (length values.old ≡ value_room) × Countable state.bench.height frames.old.opens }
    ensures { (result.mode < 14) × ((s : Source) (i : ℕ) → number ≡ word_number s i kind → (kind ≡ 15 → value ≡ value_at s.text (place s i))
        → Read state rows.old frames.old.ops frames.old.opens values.old (λ w. compose_token s w i (class_of kind)) result
        rows.new frames.new.ops frames.new.opens values.new 4) }
{
    let mode = next_mode(kind, state.mode);
    if is_desk(kind) {
        let bench = desk_token(kind, number, state.mode, state.bench, rows, frames);
        return State {
            mode,
            bench,
            ..state
        };
    }
    if kind == NUMBER {
        return number_token(state, mode, value, rows, values);
    }
    if SLASH <= kind {
        return slash_token(kind, mode, state, rows, frames);
    }
    step_token(kind, number, mode, state, rows, frames)
}
