// Reads of a path's rows, each equal to its definition (document 01, "The path form"). Of rows past the end they read 0.
#![tactic(auto)]

ghost use Rattle.std.specs.Prelude.{◌≡◌, ◌<◌, ◌≤◌, Bool, cond};
ghost use Rattle.meaning.specs.Axis.{axis_of, test_of};
ghost use Rattle.meaning.specs.Rows.{op_at, field, rows_of, fields_of, is_link, follow, first_link, second_link};
ghost use Rattle.meaning.specs.Tree.{index_or_axis, test_at};
ghost use Rattle.meaning.specs.Turning.{inverse_of};

use basics::entry;
use meaning::{Axis, Op, Test};

// The inverse axis of each axis: 1 and 2, 3 and 4 and so on are inverse to each other; 11 has none, and 0 fills its place.
const INVERSES: [usize; 12] = [0, 2, 1, 4, 3, 6, 5, 8, 7, 10, 9, 0];

// The last row whose fields all have an index. Unlike a path's length, this bound falls away where a row is known to be small.
const LAST_ROW: usize = (usize::MAX - 4) / 5;

// How many rows the path has.
pub fn row_count(path: &[u32]) -> usize
    ensures { result ≡ rows_of path.now }
{
    path.len() / 5
}

// Field f of a row: op, a, b, c, d are 0 to 4.
pub fn field_at(path: &[u32], row: usize, f: usize) -> usize
    requires { f ≤ 4 }
    ensures { (result ≡ field path.now row f) × (result < 4294967296) }
{
    if row <= LAST_ROW {
        entry(path, 5 * row + f)
    } else {
        0
    }
}

// A row's op.
pub fn op_at(path: &[u32], row: usize) -> Op
    ensures { result ≡ op_at path.now row }
{
    Op::from(field_at(path, row, 0))
}

// Is an op's field a a link field?
#[tactic(auto, unfolding(meaning::specs::Rows::fields_of, meaning::specs::Rows::is_link))]
pub fn has_first(op: Op) -> bool
    ensures { result ≡ is_link (fields_of op).a }
{
    !matches!(op, Op::Unknown | Op::Literal | Op::Position | Op::Last)
}

// Is its field b one?
#[tactic(auto, unfolding(meaning::specs::Rows::fields_of, meaning::specs::Rows::is_link))]
pub fn has_second(op: Op) -> bool
    ensures { result ≡ is_link (fields_of op).b }
{
    matches!(
        op,
        Op::Add
            | Op::Subtract
            | Op::Multiply
            | Op::Divide
            | Op::Remainder
            | Op::Equal
            | Op::Unequal
            | Op::Less
            | Op::LessEqual
            | Op::Greater
            | Op::GreaterEqual
            | Op::And
            | Op::Or
            | Op::Step
            | Op::Predicate
    )
}

// The link that field f of a row holds, where it is a link field; 0 where it links none.
#[tactic(auto, unfolding(meaning::specs::Rows::follow))]
fn link_in(path: &[u32], row: usize, f: usize, is_link: bool) -> usize
    requires { f ≤ 4 }
    ensures { (result ≡ cond is_link (follow row (field path.now row f)) 0) × (result ≤ row) }
{
    let l = field_at(path, row, f);
    if is_link && l <= row { l } else { 0 }
}

// The link that a row's field a holds; 0 where it links none. Links stay the document's numbers, no Option: the definitions read 0 as the
// empty tree, and a link is passed on as it is.
#[tactic(auto, unfolding(meaning::specs::Rows::first_link))]
pub fn first_link(path: &[u32], row: usize) -> usize
    ensures { (result ≡ first_link path.now row) × (result ≤ row) }
{
    link_in(path, row, 1, has_first(op_at(path, row)))
}

// The link that its field b holds.
#[tactic(auto, unfolding(meaning::specs::Rows::second_link))]
pub fn second_link(path: &[u32], row: usize) -> usize
    ensures { (result ≡ second_link path.now row) × (result ≤ row) }
{
    link_in(path, row, 2, has_second(op_at(path, row)))
}

// A literal's index, or the number of a step's axis; 0 for any other op. Two compares: a match would jump through a table.
#[tactic(auto, unfolding(meaning::specs::Tree::index_or_axis, meaning::specs::Rows::is_literal, meaning::specs::Rows::is_step, meaning::specs::Rows::code))]
pub fn index_or_axis(path: &[u32], row: usize) -> usize
    ensures { (result ≡ index_or_axis path.now row) × (result < 4294967296) }
{
    let op = op_at(path, row);
    if op == Op::Step {
        field_at(path, row, 3)
    } else if op == Op::Literal {
        field_at(path, row, 1)
    } else {
        0
    }
}

// The number of a step's test; 0 for any other op.
#[tactic(auto, unfolding(meaning::specs::Tree::test_at, meaning::specs::Rows::is_step, meaning::specs::Rows::code))]
pub fn test_at(path: &[u32], row: usize) -> usize
    ensures { (result ≡ test_at path.now row) × (result < 4294967296) }
{
    match op_at(path, row) {
        Op::Step => field_at(path, row, 4),
        _ => 0,
    }
}

// A step's axis; self for any other op but a literal, whose index is read as an axis.
pub fn axis_at(path: &[u32], row: usize) -> Axis
    ensures { result ≡ axis_of (index_or_axis path.now row) }
{
    Axis::from(index_or_axis(path, row))
}

// A step's test; node() for any other op.
pub fn node_test_at(path: &[u32], row: usize) -> Test
    ensures { result ≡ test_of (test_at path.now row) }
{
    Test::from(test_at(path, row))
}

// The number of the inverse axis. It takes and gives numbers, since turned rows hold them: an `Axis` would be made of one only to be
// written as another.
#[tactic(auto, unfolding(meaning::specs::Turning::inverse_of))]
pub fn inverse_axis(axis: usize) -> usize
    ensures { (result ≡ inverse_of axis) × (result ≤ 10) }
{
    INVERSES.get(axis).copied().unwrap_or(0)
}

pub mod fields;
