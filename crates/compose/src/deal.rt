// Tokens that change the desk alone: brackets, calls and operators.
ghost use Rattle.std.specs.Prelude.{◌≡◌, true, List, ℕ, ◌-◌, ◌<◌, ◌≤◌, length};
ghost use Rattle.meaning.specs.Rows.{code};
ghost use Rattle.text.specs.Tokens.{class_of};
ghost use Rattle.text.specs.Reading.{operation};
ghost use Rattle.compose.specs.Standing.{row_room, Worked, Countable, Opened, Dealt};
ghost use Rattle.compose.specs.Deals.{Roomy, opened, closed, squared, called, wanted, operated, signed, of_desk};

use crate::desk::{
    close_round, close_square, open_group, open_truth, push_frame, settle_frames, strength,
};
use crate::kinds::{CLOSING, CLOSING_SQUARE, FUNCTION_NAME, MINUS, OPENING, OPENING_SQUARE, PLUS};
use crate::mode::{is_beginning, is_ending, is_signing};
use crate::ops::{
    ADD, AND, COUNT, DIVIDE, EQUAL, GREATER, GREATER_EQUAL, LAST, LESS, LESS_EQUAL, MULTIPLY,
    NEGATE, NEGATION, OR, POSITION, PREDICATE, REMAINDER, SUBTRACT, UNEQUAL,
};
use crate::pen::{made_truth, write_row};
use crate::{Bench, OPENS, Stack};
use text::{Function, Sort};

// `(` where an operand is due is a group's.
fn open_token(mode: usize, height: usize, opens: &mut [usize; OPENS])
    requires { (mode < 14) × (height ≤ 260) × Countable height opens.old }
    ensures { Opened (opened mode) height opens.old opens.new }
{
    if is_beginning(mode) {
        open_group(height, opens);
    }
}

// `)` where an operand is whole closes a group or a call.
fn close_token(mode: usize, bench: Bench, rows: &mut [u32], frames: &mut Stack) -> Bench
    requires { (mode < 14) × Roomy 516 bench rows.old }
    ensures { Worked bench rows.old frames.old.ops frames.old.opens (closed mode) result rows.new frames.new.ops
        frames.new.opens 4 }
{
    if is_ending(mode) {
        let settled = settle_frames(bench, rows, frames, 1);
        return close_round(settled, rows, frames);
    }
    bench
}

// `]` closes a predicate.
fn square_token(bench: Bench, rows: &mut [u32], frames: &Stack) -> Bench
    requires { Roomy 516 bench rows.old }
    ensures { Worked bench rows.old frames.now.ops frames.now.opens squared result rows.new frames.now.ops
        frames.now.opens 4 }
{
    let settled = settle_frames(bench, rows, frames, 1);
    close_square(settled, rows, &frames.ops)
}

// position() and last() are rows, count() and not() rows to come.
fn call_token(number: u32, bench: Bench, rows: &mut [u32], frames: &mut Stack) -> Bench
    requires { Roomy 516 bench rows.old × Countable bench.height frames.old.opens }
    ensures { Worked bench rows.old frames.old.ops frames.old.opens (called number) result rows.new frames.new.ops
        frames.new.opens 4 }
{
    let hand = bench.hand;
    match Function::from(number as usize) {
        Function::PositionCall => {
            let done = write_row(hand, rows, POSITION, 0, 0, 0, 0, Sort::Numeral);
            Bench {
                hand: done,
                ..bench
            }
        }
        Function::LastCall => {
            let done = write_row(hand, rows, LAST, 0, 0, 0, 0, Sort::Numeral);
            Bench {
                hand: done,
                ..bench
            }
        }
        Function::CountCall => push_frame(bench, frames, COUNT, 0, 0),
        Function::NotCall => push_frame(bench, frames, NEGATION, 0, 0),
        Function::BooleanCall => {
            open_truth(bench.height, &mut frames.opens);
            bench
        }
        Function::OtherCall => bench,
    }
}

// The left operand of and and or is a truth.
fn left_operand(bench: Bench, rows: &mut [u32], k: usize) -> Bench
    requires { (bench.hand.rows < 520) × (length rows.old ≡ row_room) }
    ensures { (ops opens : List ℕ) → Worked bench rows.old ops opens (wanted k) result rows.new ops opens 1 }
{
    if 2 < k {
        return bench;
    }
    let truth = made_truth(bench.hand, rows);
    Bench {
        hand: truth,
        ..bench
    }
}

// An operator fills the frames that bind as strongly, and is a row to come.
fn operator_token(op: u32, bench: Bench, rows: &mut [u32], frames: &mut Stack) -> Bench
    requires { Roomy 516 bench rows.old }
    ensures { Worked bench rows.old frames.old.ops frames.old.opens (operated op) result rows.new frames.new.ops
        frames.new.opens 4 }
{
    let k = strength(op);
    let settled = settle_frames(bench, rows, frames, k);
    let left = left_operand(settled, rows, k);
    push_frame(left, frames, op, 0, 0)
}

// `-` where an operand is due is a sign.
fn minus_token(mode: usize, bench: Bench, rows: &mut [u32], frames: &mut Stack) -> Bench
    requires { (mode < 14) × Roomy 516 bench rows.old }
    ensures { Worked bench rows.old frames.old.ops frames.old.opens (signed mode) result rows.new frames.new.ops
        frames.new.opens 4 }
{
    if is_signing(mode) {
        return push_frame(bench, frames, NEGATE, 0, 0);
    }
    operator_token(SUBTRACT, bench, rows, frames)
}

// The ops of the binary operators, in the order of their classes.
static OPERATIONS: [u32; 13] = [
    ADD,
    SUBTRACT,
    EQUAL,
    UNEQUAL,
    LESS,
    LESS_EQUAL,
    GREATER,
    GREATER_EQUAL,
    MULTIPLY,
    AND,
    OR,
    DIVIDE,
    REMAINDER,
];

fn operation_of(kind: usize) -> u32
    requires { (20 ≤ kind) × (kind < 33) }
    ensures { result ≡ code (operation (class_of kind)) }
{
    OPERATIONS[kind - PLUS]
}

// A token of this class, with its number.
pub fn desk_token(
    kind: usize,
    number: u32,
    mode: usize,
    bench: Bench,
    rows: &mut [u32],
    frames: &mut Stack,
) -> Bench
    requires { (mode < 14) × (kind < 33) × (of_desk kind ≡ true) × Roomy 516 bench rows.old
        × Countable bench.height frames.old.opens }
    ensures { Dealt kind number mode bench rows.old frames.old.ops frames.old.opens result rows.new frames.new.ops
        frames.new.opens }
{
    if kind == MINUS {
        return minus_token(mode, bench, rows, frames);
    }
    if PLUS <= kind {
        return operator_token(operation_of(kind), bench, rows, frames);
    }
    match kind {
        OPENING => {
            open_token(mode, bench.height, &mut frames.opens);
            bench
        }
        CLOSING => close_token(mode, bench, rows, frames),
        OPENING_SQUARE => push_frame(bench, frames, PREDICATE, 0, 0),
        CLOSING_SQUARE => square_token(bench, rows, frames),
        FUNCTION_NAME => call_token(number, bench, rows, frames),
        _ => bench,
    }
}
