// Frames, which are rows to come: four numbers of one array, the op, the link that it has already, an axis and a test, and two of another, how
// many round brackets are open behind it and which of those was the last boolean().
ghost use Rattle.std.specs.Prelude.{◌≡◌, List, [], ◌∷◌, ℕ, ◌+◌, ◌-◌, ◌*◌, ◌<◌, ◌≤◌, length};
ghost use Rattle.std.proofs.lemmas.List.Edits.{sets};
ghost use Rattle.text.specs.Composing.{strength_of, settled, push, open_group, open_truth, close_round, close_square, paths_in};
ghost use Rattle.compose.specs.Standing.{frames_of, row_room, load, Worked, top_fills, filled, close_call, Countable, Opened};

use crate::ops::{ABSOLUTE, NEGATION, RELATIVE};
use crate::pen::{fill_row, made_predicate, made_truth, write_row};
use crate::{Bench, Hand, OPENS, OPS, Stack};
use text::Sort;

fn store_frame(ops: &mut [u32], at: usize, op: u32, a: u32, c: u32, d: u32)
    requires { at + 4 ≤ length ops.old }
    ensures { ops.new ≡ sets ops.old at (op ∷ a ∷ c ∷ d ∷ []) }
{
    ops[at] = op;
    ops[at + 1] = a;
    ops[at + 2] = c;
    ops[at + 3] = d;
}

fn store_open(opens: &mut [usize], at: usize, o: usize, t: usize)
    requires { at + 2 ≤ length opens.old }
    ensures { opens.new ≡ sets opens.old at (o ∷ t ∷ []) }
{
    opens[at] = o;
    opens[at + 1] = t;
}

// A frame that has the link in hand; then nothing is in hand.
pub fn push_frame(bench: Bench, frames: &mut Stack, op: u32, c: u32, d: u32) -> Bench
    requires { bench.height < 260 }
    ensures { (rows : List ℕ) → Worked bench rows frames.old.ops frames.old.opens (push op c d) result rows frames.new.ops
        frames.new.opens 2 }
{
    let height = bench.height;
    let hand = bench.hand;
    store_frame(&mut frames.ops, 4 * height, op, hand.link, c, d);
    store_open(&mut frames.opens, 2 * height, 0, 0);
    let empty = Hand {
        link: 0,
        sort: Sort::Unheld,
        ..hand
    };
    Bench {
        hand: empty,
        height: height + 1,
    }
}

// How strongly the row of each op to come binds.
static STRENGTHS: [usize; 26] = [
    0, 0, 0, 0, 5, 5, 6, 6, 6, 7, 3, 3, 4, 4, 4, 4, 2, 1, 0, 0, 0, 0, 9, 9, 11, 0,
];

#[tactic(auto, unfolding(text::specs::Composing::strength_of))]
pub fn strength(op: u32) -> usize
    ensures { result ≡ strength_of op }
{
    STRENGTHS.get(op as usize).copied().unwrap_or(0)
}

// Does the top frame bind at least as strongly as k, with no bracket open behind it?
fn may_fill(k: usize, frames: &Stack, height: usize) -> bool
    requires { height ≤ 260 }
    ensures { result ≡ top_fills k (frames_of frames.now.ops frames.now.opens height) }
{
    if height == 0 {
        return false;
    }
    let top = height - 1;
    k <= strength(frames.ops[4 * top]) && frames.opens[2 * top] == 0
}

// The top frame is filled.
fn fill_top(bench: Bench, rows: &mut [u32], ops: &[u32; OPS]) -> Bench
    requires { (0 < bench.height) × (load bench ≤ 518) × (length rows.old ≡ row_room) }
    ensures { (result.height + 1 ≡ bench.height) × ((opens : List ℕ) → Worked bench rows.old ops.now opens filled result
        rows.new ops.now opens 0) }
{
    let top = bench.height - 1;
    let hand = bench.hand;
    let at = 4 * top;
    let done = fill_row(hand, rows, ops[at], ops[at + 1], ops[at + 2], ops[at + 3]);
    Bench {
        hand: done,
        height: top,
    }
}

// The frames at the top that bind at least as strongly as k are filled.
pub fn settle_frames(bench: Bench, rows: &mut [u32], frames: &Stack, k: usize) -> Bench
    requires { (load bench ≤ 518) × (length rows.old ≡ row_room) }
    ensures { Worked bench rows.old frames.now.ops frames.now.opens (settled k) result rows.new frames.now.ops
        frames.now.opens 0 }
{
    let mut left = bench;
    // Until nothing more may be filled: it counts no index.
    while may_fill(k, frames, left.height) {
        left = fill_top(left, rows, &frames.ops);
    }
    left
}

// A round bracket opens behind the top frame.
pub fn open_group(height: usize, opens: &mut [usize; OPENS])
    requires { (height ≤ 260) × Countable height opens.old }
    ensures { Opened open_group height opens.old opens.new }
{
    if height == 0 {
        return;
    }
    let at = 2 * (height - 1);
    let open = opens[at] + 1;
    opens[at] = open;
}

// So does boolean(), and is then the last of those.
pub fn open_truth(height: usize, opens: &mut [usize; OPENS])
    requires { (height ≤ 260) × Countable height opens.old }
    ensures { Opened open_truth height opens.old opens.new }
{
    if height == 0 {
        return;
    }
    let at = 2 * (height - 1);
    let open = opens[at] + 1;
    store_open(opens, at, open, open);
}

// The bracket of not() or count() closes: the frame is the row.
fn close_call(bench: Bench, rows: &mut [u32], ops: &[u32; OPS]) -> Bench
    requires { (0 < bench.height) × (load bench ≤ 518) × (length rows.old ≡ row_room) }
    ensures { (opens : List ℕ) → Worked bench rows.old ops.now opens close_call result rows.new
        ops.now opens 0 }
{
    let top = bench.height - 1;
    let hand = bench.hand;
    let op = ops[4 * top];
    if op == NEGATION {
        let truth = made_truth(hand, rows);
        let done = write_row(truth, rows, op, truth.link, 0, 0, 0, Sort::Truth);
        return Bench {
            hand: done,
            height: top,
        };
    }
    let done = write_row(hand, rows, op, hand.link, 0, 0, 0, Sort::Numeral);
    Bench {
        hand: done,
        height: top,
    }
}

// `)` behind a settled desk. Behind the last boolean() the value is a truth already.
pub fn close_round(bench: Bench, rows: &mut [u32], frames: &mut Stack) -> Bench
    requires { (load bench ≤ 518) × (length rows.old ≡ row_room) }
    ensures { Worked bench rows.old frames.old.ops frames.old.opens close_round result rows.new frames.new.ops
        frames.new.opens 2 }
{
    let height = bench.height;
    if height == 0 {
        return bench;
    }
    let at = 2 * (height - 1);
    let open = frames.opens[at];
    let last = frames.opens[at + 1];
    if open == 0 {
        return close_call(bench, rows, &frames.ops);
    }
    frames.opens[at] = open - 1;
    if open != last {
        return bench;
    }
    let truth = made_truth(bench.hand, rows);
    Bench {
        hand: truth,
        ..bench
    }
}

// `]` behind a settled desk.
pub fn close_square(bench: Bench, rows: &mut [u32], ops: &[u32; OPS]) -> Bench
    requires { (load bench ≤ 518) × (length rows.old ≡ row_room) }
    ensures { (opens : List ℕ) → Worked bench rows.old ops.now opens close_square result rows.new
        ops.now opens 0 }
{
    let height = bench.height;
    if height == 0 {
        return bench;
    }
    let at = 4 * (height - 1);
    let hand = bench.hand;
    let held = made_predicate(hand, rows);
    let done = write_row(
        held,
        rows,
        ops[at],
        ops[at + 1],
        held.link,
        0,
        0,
        Sort::Unheld,
    );
    let top = height - 1;
    Bench {
        hand: done,
        height: top,
    }
}

// How many paths are to come.
pub fn paths_in(ops: &[u32; OPS], height: usize) -> usize
    requires { height ≤ 260 }
    ensures { ((opens : List ℕ) → result ≡ paths_in (frames_of ops.now opens height)) × (result ≤ height) }
{
    let mut count = 0;
    for i in 0..height {
        let op = ops[4 * i];
        if op == RELATIVE || op == ABSOLUTE {
            count += 1;
        }
    }
    count
}
