// The place of a node on an axis of another (document 02, W-203): the table is checked, then one pass over the rows before the node, in the
// order of the axis, and no list.
#![tactic(auto)]

ghost use Rattle.std.specs.Prelude.{◌≡◌, ◌<◌, ◌≤◌};
ghost use Rattle.meaning.specs.Table.{rows, most_rows};
ghost use Rattle.meaning.specs.Axis.{place};
ghost use Rattle.meaning.specs.Answers.{askable};
ghost use Rattle.meaning.specs.Promises.{AnswersPlace};

use axes::{holds, is_reverse, nth};
use meaning::{Axis, LAST_AXIS};
use table::row_count;
use table_check::check_table;

// May a place be asked at all?
fn is_askable(table: &[u32], axis: usize, x: usize, y: usize) -> bool
    ensures { result ≡ askable table.now axis x y }
{
    if check_table(table).is_err() {
        return false;
    }
    let n = row_count(table);
    axis <= LAST_AXIS && x < n && y < n
}

// The place of y on the axis of x: one more than the nodes of the axis that come before it.
fn place_on(table: &[u32], axis: Axis, x: usize, y: usize) -> usize
    requires { (rows table.now ≤ most_rows) × (x < rows table.now) × (y < rows table.now) }
    ensures { (result ≡ place table.now axis x y) × (result ≤ most_rows) }
{
    if !holds(table, axis, x, y) {
        return 0;
    }
    let n = row_count(table);
    let reverse = is_reverse(axis);
    let own = nth(reverse, n, y);
    let mut before = 0;
    for i in 0..own {
        if holds(table, axis, x, nth(reverse, n, i)) {
            before += 1;
        }
    }
    before + 1
}

// The place of node y on the axis with this number of node x, from 1 in axis order and before any test; 0 where it is not there, the table
// is not accepted, no axis has the number, or x or y is no row.
pub fn axis_place(table: &[u32], axis: u32, x: u32, y: u32) -> u32
    ensures { AnswersPlace table.now axis x y result }
{
    let (number, start, node) = (axis as usize, x as usize, y as usize);
    if !is_askable(table, number, start, node) {
        return 0;
    }
    place_on(table, Axis::from(number), start, node) as u32
}
