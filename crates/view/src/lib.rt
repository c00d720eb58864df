// The subtree view (document 01, "Numbers given back"): the entries from v to v + size(v), as a part of the caller's list.
// The part is found by its two ends, by halving; the table and the whole list are looked at before.
#![tactic(auto)]

ghost use Rattle.std.specs.Prelude.{◌≡◌};
ghost use Rattle.meaning.specs.View.{entry_fits, ascending, viewable, begins};
ghost use Rattle.meaning.specs.Promises.{FindsPart, ShowsPart};
ghost use Rattle.meaning.proofs.Lists.{Rising};

use basics::entry;
use meaning::Part;
use table::{end_at, row_count};
use table_check::check_table;

// Is entry i the first, or above the entry before it, and below the row count?
#[tactic(auto, unfolding(meaning::specs::View::entry_fits))]
fn entry_fits(table: &[u32], list: &[u32], i: usize) -> bool
    ensures { result ≡ entry_fits table.now list.now i }
{
    let x = entry(list, i);
    (i == 0 || entry(list, i - 1) < x) && x < row_count(table)
}

// Is the list strictly ascending with entries below the row count?
fn is_ascending(table: &[u32], list: &[u32]) -> bool
    ensures { result ≡ ascending table.now list.now }
{
    for i in 0..list.len() {
        if !entry_fits(table, list, i) {
            return false;
        }
    }
    true
}

// May a part be handed back at all?
fn is_viewable(table: &[u32], list: &[u32], v: usize) -> bool
    ensures { result ≡ viewable table.now list.now v }
{
    check_table(table).is_ok() && v < row_count(table) && is_ascending(table, list)
}

// The lowest index with an entry of v or more, or the length where there is none.
fn lower_bound(list: &[u32], v: usize) -> usize
    requires { Rising list.now }
    ensures { result ≡ begins list.now v }
{
    list.partition_point(|x| (*x as usize) < v)
}

// Where the part begins and how many entries it has: 0 and 0 for an empty one.
pub fn ends_of(table: &[u32], list: &[u32], node: u32) -> Part
    ensures { FindsPart table.now list.now node result }
{
    let v = node as usize;
    if !is_viewable(table, list, v) {
        return Part {
            begin: 0,
            length: 0,
        };
    }
    let begin = lower_bound(list, v);
    let end = lower_bound(list, end_at(table, v) + 1);
    if begin < end {
        Part {
            begin,
            length: end - begin,
        }
    } else {
        Part {
            begin: 0,
            length: 0,
        }
    }
}

// The part itself, no copy: empty if the table is not accepted, the node is outside or the list is not as said.
pub fn view<'a, 'b>(table: &'a [u32], list: &'b [u32], node: u32) -> &'b [u32]
    ensures { ShowsPart table.now list.entry node result }
{
    let part = ends_of(table, list, node);
    let begin = part.begin;
    let end = begin + part.length;
    &list[begin..end]
}
