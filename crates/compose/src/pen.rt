// Rows, written one behind the other.
ghost use Rattle.std.specs.Prelude.{◌≡◌, [], ◌∷◌, ◌+◌, ◌*◌, ◌<◌, ◌≤◌, length};
ghost use Rattle.std.proofs.lemmas.List.Edits.{sets};
ghost use Rattle.text.specs.Composing.{frame, put, truthful, predicable, row_of};
ghost use Rattle.compose.specs.Standing.{row_room, Penned};

use crate::Hand;
use crate::ops::{EQUAL, EXISTS, GREATER_EQUAL, NEGATE, RELATIVE, STEP, TRUTH_OF};
use text::Sort;

fn store_row(rows: &mut [u32], at: usize, op: u32, a: u32, b: u32, c: u32, d: u32)
    requires { at + 5 ≤ length rows.old }
    ensures { rows.new ≡ sets rows.old at (op ∷ a ∷ b ∷ c ∷ d ∷ []) }
{
    rows[at] = op;
    rows[at + 1] = a;
    rows[at + 2] = b;
    rows[at + 3] = c;
    rows[at + 4] = d;
}

// A row is written, and is then in hand.
pub fn write_row(
    hand: Hand,
    rows: &mut [u32],
    op: u32,
    a: u32,
    b: u32,
    c: u32,
    d: u32,
    sort: Sort,
) -> Hand
    requires { (hand.rows < 520) × (length rows.old ≡ row_room) }
    ensures { Penned hand rows.old (put op a b c d sort) result rows.new 1 }
{
    let n = hand.rows;
    store_row(rows, 5 * n, op, a, b, c, d);
    let count = n + 1;
    let link = count as u32;
    Hand {
        link,
        sort,
        rows: count,
    }
}

// Where a truth is wanted, it is made of a number or of a path.
pub fn made_truth(hand: Hand, rows: &mut [u32]) -> Hand
    requires { (hand.rows < 520) × (length rows.old ≡ row_room) }
    ensures { Penned hand rows.old truthful result rows.new 1 }
{
    let sort = hand.sort;
    match sort {
        Sort::Numeral => write_row(hand, rows, TRUTH_OF, hand.link, 0, 0, 0, Sort::Truth),
        Sort::Truth => hand,
        Sort::Nodes => write_row(hand, rows, EXISTS, hand.link, 0, 0, 0, Sort::Truth),
        Sort::Unheld => hand,
    }
}

// Of a path that is a whole predicate a truth is made.
pub fn made_predicate(hand: Hand, rows: &mut [u32]) -> Hand
    requires { (hand.rows < 520) × (length rows.old ≡ row_room) }
    ensures { Penned hand rows.old predicable result rows.new 1 }
{
    let sort = hand.sort;
    match sort {
        Sort::Numeral => hand,
        Sort::Truth => hand,
        Sort::Nodes => write_row(hand, rows, EXISTS, hand.link, 0, 0, 0, Sort::Truth),
        Sort::Unheld => hand,
    }
}

// A frame's row, with its last operand in hand, by the number of its op: steps, paths, the sign, the operators that give numbers, comparisons,
// and and or, which want a truth.
pub fn fill_row(hand: Hand, rows: &mut [u32], op: u32, a: u32, c: u32, d: u32) -> Hand
    requires { (hand.rows < 519) × (length rows.old ≡ row_room) }
    ensures { Penned hand rows.old (row_of (frame op a c d 0 0)) result rows.new 2 }
{
    match op {
        STEP => write_row(hand, rows, op, a, hand.link, c, d, Sort::Unheld),
        RELATIVE.. => write_row(hand, rows, op, hand.link, 0, 0, 0, Sort::Nodes),
        NEGATE => write_row(hand, rows, op, hand.link, 0, 0, 0, Sort::Numeral),
        ..NEGATE => write_row(hand, rows, op, a, hand.link, 0, 0, Sort::Numeral),
        EQUAL..=GREATER_EQUAL => write_row(hand, rows, op, a, hand.link, 0, 0, Sort::Truth),
        _ => {
            let truth = made_truth(hand, rows);
            write_row(truth, rows, op, a, truth.link, 0, 0, Sort::Truth)
        }
    }
}
