// Which rows a chain of steps may come by from a set of rows, by its axes and tests alone, whatever its predicates say. An edition, a table
// and a path stay three parameters of these two functions: the struct that holds them stands above, in select, with literals beside them.
#![tactic(auto)]

ghost use Rattle.std.specs.Prelude.{◌≡◌, length};
ghost use Rattle.meaning.specs.Table.{most_rows};
ghost use Rattle.meaning.specs.Tree.{tree};
ghost use Rattle.cover.specs.Ready.{Ready};
ghost use Rattle.cover.specs.Covered.{Covered, CoversActive};

use marks::{join, sift};
use meaning::MOST_ROWS;
use path::{axis_at, first_link, node_test_at};
use reach::reach;
use sieve::retain;
use table::row_count;

// Marks what the chain of steps that a link names may reach from the marked rows, and adds the rows on the way to those near.
fn cover(
    edition: usize,
    table: &[u32],
    path: &[u32],
    link: usize,
    marks: &mut [bool],
    near: &mut [bool],
)
    requires { (Ready table.now link) × ((length marks.old ≡ most_rows) × (length near.old ≡ most_rows)) }
    ensures { Covered edition table.now (tree path.now link) marks.old marks.new near.old near.new }
{
    if link == 0 {
        return;
    }
    let row = link - 1;
    let before = first_link(path, row);
    cover(edition, table, path, before, marks, near);
    let axis = axis_at(path, row);
    let test = node_test_at(path, row);
    reach(table, axis, marks);
    sift(edition, table, axis, test, marks);
    join(table, marks, near);
}

// Adds to those near every row that the chain of steps that a link names may come by from the active rows.
pub fn cover_active(
    edition: usize,
    table: &[u32],
    path: &[u32],
    link: usize,
    active: u16,
    states: &[u16],
    near: &mut [bool],
)
    requires ready { Ready table.now link }
    requires rooms { (length states.now ≡ most_rows) × (length near.old ≡ most_rows) }
    ensures { CoversActive edition table.now (tree path.now link) active states.now near.new }
{
    let mut reached = [true; MOST_ROWS];
    retain(states, active, &mut reached, row_count(table));
    cover(edition, table, path, link, &mut reached, near);
}
