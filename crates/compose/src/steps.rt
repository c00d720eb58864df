// Tokens of steps, and numbers.
ghost use Rattle.std.specs.Prelude.{◌≡◌, true, List, ℕ, ◌+◌, ◌<◌, ◌≤◌, max, length, take, Float};
ghost use Rattle.text.specs.Tokens.{class_of};
ghost use Rattle.text.specs.Limited.{Source};
ghost use Rattle.text.specs.Reading.{index_of, with};
ghost use Rattle.text.specs.Survey.{mode_after};
ghost use Rattle.text.specs.Composing.{path_from, point_read, axis_read, test_read, step_ended, number_read, compose_token};
ghost use Rattle.compose.specs.Standing.{mode_of, row_room, value_room, Read, word_number};
ghost use Rattle.compose.specs.Deals.{Roomy, of_step};

use crate::desk::{paths_in, push_frame, settle_frames};
use crate::kinds::{AT, AXIS_NAME, DOT, DOTS, SLASHES};
use crate::mode::is_beginning;
use crate::ops::{
    ABSOLUTE, CHILD, DESCENDANT_OR_SELF, ITSELF, LITERAL_ROW, PARENT, RELATIVE, STEP,
};
use crate::pen::write_row;
use crate::{Bench, Stack, State};
use literals::index_of;
use text::Sort;

// A path begins with this op where an operand is due; behind a step it goes on.
fn path_from(state: State, frames: &mut Stack, op: u32) -> State
    requires { (state.mode < 14) × (state.bench.height < 260) }
    ensures { (result.mode ≡ state.mode) × ((rows : List ℕ) (values : List Float) → Read state rows frames.old.ops frames.old.opens values
        (path_from op) result rows frames.new.ops frames.new.opens values 2) }
{
    if is_beginning(state.mode) {
        let paths = paths_in(&frames.ops, state.bench.height) + 1;
        let bench = push_frame(state.bench, frames, op, 0, 0);
        return State {
            deepest: state.deepest.max(paths),
            bench,
            ..state
        };
    }
    state
}

// A step without predicates.
fn point_token(state: State, mode: usize, axis: u32, rows: &mut [u32]) -> State
    requires { (state.bench.hand.rows < 520) × (length rows.old ≡ row_room) }
    ensures { (result.mode ≡ mode) × ((ops opens : List ℕ) (values : List Float) → Read state rows.old ops opens values
        (point_read (mode_of mode) axis) result rows.new ops opens values 1) }
{
    let hand = state.bench.hand;
    let done = write_row(hand, rows, STEP, hand.link, 0, axis, 0, Sort::Unheld);
    State {
        mode,
        bench: Bench {
            hand: done,
            ..state.bench
        },
        ..state
    }
}

// The axis of the step to come.
fn axis_token(state: State, mode: usize, axis: u32) -> State
    ensures { (result.mode ≡ mode) × ((rows ops opens : List ℕ) (values : List Float) → Read state rows ops opens values
        (axis_read (mode_of mode) axis) result rows ops opens values 0) }
{
    State {
        mode,
        axis,
        ..state
    }
}

// A node test: its step is a row to come.
fn test_token(state: State, mode: usize, test: u32, frames: &mut Stack) -> State
    requires { state.bench.height < 260 }
    ensures { (result.mode ≡ mode) × ((rows : List ℕ) (values : List Float) → Read state rows frames.old.ops frames.old.opens values
        (test_read (mode_of mode) test) result rows frames.new.ops frames.new.opens values 2) }
{
    let bench = push_frame(state.bench, frames, STEP, state.axis, test);
    State {
        mode,
        axis: CHILD,
        bench,
        ..state
    }
}

// `/` and `//` behind a step.
fn step_ended(state: State, rows: &mut [u32], frames: &Stack) -> State
    requires { (state.mode < 14) × Roomy 518 state.bench rows.old }
    ensures { (values : List Float) → Read state rows.old frames.now.ops frames.now.opens values step_ended result
        rows.new frames.now.ops frames.now.opens values 0 }
{
    if is_beginning(state.mode) {
        return state;
    }
    let bench = settle_frames(state.bench, rows, frames, 10);
    State { bench, ..state }
}

// A token of a step of this class, with its number.
pub fn step_token(
    kind: usize,
    number: u32,
    mode: usize,
    state: State,
    rows: &mut [u32],
    frames: &mut Stack,
) -> State
    requires { (state.mode < 14) × (mode_of mode ≡ mode_after (mode_of state.mode) (class_of kind)) × (of_step kind ≡ true)
        × Roomy 514 state.bench rows.old }
    ensures { (result.mode ≡ mode) × ((values : List Float) (s : Source) (i : ℕ) → number ≡ word_number s i kind
        → Read state rows.old frames.old.ops frames.old.opens values (λ w. compose_token s w i (class_of kind)) result
        rows.new frames.new.ops frames.new.opens values 4) }
{
    let begun = path_from(state, frames, RELATIVE);
    match kind {
        DOT => point_token(begun, mode, ITSELF, rows),
        DOTS => point_token(begun, mode, PARENT, rows),
        AT | AXIS_NAME => axis_token(begun, mode, number),
        _ => test_token(begun, mode, number, frames),
    }
}

// `/` and `//`, which is one more step.
pub fn slash_token(
    kind: usize,
    mode: usize,
    state: State,
    rows: &mut [u32],
    frames: &mut Stack,
) -> State
    requires { (state.mode < 14) × (mode_of mode ≡ mode_after (mode_of state.mode) (class_of kind)) × (17 ≤ kind) × (kind ≤ 18)
        × Roomy 514 state.bench rows.old }
    ensures { (result.mode ≡ mode) × ((values : List Float) (s : Source) (i : ℕ)
        → Read state rows.old frames.old.ops frames.old.opens values (λ w. compose_token s w i (class_of kind)) result
        rows.new frames.new.ops frames.new.opens values 4) }
{
    let begun = path_from(state, frames, ABSOLUTE);
    let ended = step_ended(begun, rows, frames);
    if kind == SLASHES {
        return point_token(ended, mode, DESCENDANT_OR_SELF, rows);
    }
    State { mode, ..ended }
}

// A value is kept among the literals if it is new; equal values share one.
fn keep_value(values: &mut [f64], n: usize, index: usize, value: f64) -> usize
    requires { (n < length values.old) × (index ≡ index_of (take n values.old) value) }
    ensures { (take result values.new ≡ with (take n values.old) value) × (n ≤ result) × (result ≤ n + 1) }
{
    if index < n {
        return n;
    }
    values[n] = value;
    n + 1
}

// A number: its row has the index of its literal.
pub fn number_token(
    state: State,
    mode: usize,
    value: f64,
    rows: &mut [u32],
    values: &mut [f64],
) -> State
    requires { (state.bench.hand.rows < 520) × (length rows.old ≡ row_room) × (state.literals < value_room) × (length values.old ≡ value_room) }
    ensures { (result.mode ≡ mode) × ((ops opens : List ℕ) → Read state rows.old ops opens values.old
        (number_read (mode_of mode) value) result rows.new ops opens values.new 1) }
{
    let n = state.literals;
    let index = index_of(values, n, value);
    let literals = keep_value(values, n, index, value);
    let done = write_row(
        state.bench.hand,
        rows,
        LITERAL_ROW,
        index as u32,
        0,
        0,
        0,
        Sort::Numeral,
    );
    State {
        mode,
        literals,
        bench: Bench {
            hand: done,
            ..state.bench
        },
        ..state
    }
}
