// The path turner (document 01, "Turning round" and "Numbers given back").
// Rows are written from the inside out, in postorder: a step behind the rows that stand already links the last of them.
#![tactic(auto)]

ghost use Rattle.std.specs.Prelude.{◌≡◌, cond, ◌++◌, ◌<◌, ◌≤◌, eqb, length, drop};
ghost use Rattle.meaning.specs.Axis.{last_axis};
ghost use Rattle.meaning.specs.Tree.{tree, index_or_axis};
ghost use Rattle.meaning.specs.Turning.{steps, first_step, is_counting, is_of_attributes, predicates, test};
ghost use Rattle.meaning.specs.Answers.{turned_rows, told};
ghost use Rattle.meaning.specs.Promises.{TurnsPath};
ghost use Rattle.turn.specs.Parts.{First, Turnable};

use counting::counting;
use meaning::{Axis, Op, Refusal};
use path::{axis_at, first_link, op_at, row_count, second_link, test_at};
use path_check::check_path;
use pen::{Pen, code_of};

const MOST_ROWS: usize = 256;

// How many steps a chain has, and the number from 1 of the first that counts and of the first on the attribute axis.
#[derive(Clone, Copy)]
struct Steps {
    count: usize,
    counting: Option<usize>,
    attribute: Option<usize>,
}

// Is a step's axis, or what stands in its place in another row, the attribute axis?
fn is_of_attributes(path: &[u32], row: usize) -> bool
    ensures { result ≡ eqb (index_or_axis path.now row) last_axis }
{
    matches!(axis_at(path, row), Axis::Attribute)
}

// What is told of the steps of a chain, in one pass from its first.
fn steps_of(path: &[u32], last: usize) -> Steps
    ensures count { (result.count ≡ steps (tree path.now last)) × (result.count ≤ last) }
    ensures counting { First result.counting (first_step is_counting (tree path.now last)) last }
    ensures attribute { First result.attribute (first_step is_of_attributes (tree path.now last)) last }
{
    if last == 0 {
        return Steps {
            count: 0,
            counting: None,
            attribute: None,
        };
    }
    let row = last - 1;
    let before = steps_of(path, first_link(path, row));
    let count = before.count + 1;
    let counts = counting(path, second_link(path, row));
    let of_attributes = is_of_attributes(path, row);
    Steps {
        count,
        counting: before.counting.or(counts.then_some(count)),
        attribute: before.attribute.or(of_attributes.then_some(count)),
    }
}

// The link to rows that were copied from a link and end before row `end`.
fn link_to(from: usize, end: usize) -> usize
    ensures { (result ≡ cond (eqb from 0) 0 end) × (result ≤ end) }
{
    if from == 0 { 0 } else { end }
}

// The predicates of a chain's last step, by their link; before the first step there are none.
#[tactic(auto, using(meaning::proofs::Trees::tree_row, meaning::proofs::Written::no_predicates), unfolding(meaning::specs::Turning::predicates))]
fn predicates_of(path: &[u32], last: usize) -> usize
    ensures { tree path.now result ≡ predicates (tree path.now last) }
{
    match last.checked_sub(1) {
        Some(row) => second_link(path, row),
        None => 0,
    }
}

// The test of a chain's last step; before the first step stands node().
#[tactic(auto, using(meaning::proofs::Trees::tree_row, meaning::proofs::Written::no_test))]
fn test_of(path: &[u32], last: usize) -> usize
    ensures { (result ≡ test (tree path.now last)) × (result < 4294967296) }
{
    match last.checked_sub(1) {
        Some(row) => test_at(path, row),
        None => 0,
    }
}

// The rows of the turned path, at the output's front.
fn write_turned(path: &[u32], out: &mut [u32])
    requires { Turnable path.now out.old }
    ensures { out.new ≡ turned_rows path.now ++ drop (length (turned_rows path.now)) out.old }
{
    let last = first_link(path, row_count(path) - 1);
    let mut pen = Pen { out, at: 0 };
    pen.write_chain(path, last);
    let steps = pen.at as u32;
    pen.put_row([code_of(Op::Relative), steps, 0, 0, 0]);
}

// Turns an accepted relative path none of whose steps counts or is on the attribute axis. A refusal leaves the output as it is.
pub fn turn(path: &[u32], literals: &[f64], out: &mut [u32]) -> Result<u32, Refusal>
    ensures { TurnsPath path.now literals.now out.old (told result) out.new }
{
    let rows = check_path(path, literals)? as usize;
    let steps = steps_of(path, first_link(path, rows - 1));
    let op = op_at(path, rows - 1);
    if let Some(step) = steps.counting {
        return Err(Refusal::StepCounts(step as u32));
    }
    if let Some(step) = steps.attribute {
        return Err(Refusal::StepOnAttributes(step as u32));
    }
    if op == Op::Absolute {
        return Err(Refusal::AbsolutePath);
    }
    let needed = rows + 1;
    if MOST_ROWS < needed || out.len() < 5 * needed {
        return Err(Refusal::NoRoomToTurn(needed as u32));
    }
    write_turned(path, out);
    Ok(needed as u32)
}

mod pen;
