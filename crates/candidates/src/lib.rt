// The candidates of a step from one node: the rows of an axis that pass a test, in the order of the axis. An axis whose nodes can be told
// from the table without a scan has a small function of its own, which promises that axis's candidates; the others look at every row.
// A row that is asked is written where the next candidate goes and counted if it passes, so that no branch hangs on the test.
#![tactic(auto)]

ghost use Rattle.std.specs.Prelude.{◌≡◌, ◌+◌, ◌<◌, ◌≤◌, min, length, take, ◌&&◌};
ghost use Rattle.meaning.specs.Lists.{keep};
ghost use Rattle.meaning.proofs.Ranges.{range, own_or_plain};
ghost use Rattle.meaning.specs.Table.{rows, most_rows, end};
ghost use Rattle.meaning.specs.Axis.{on, passes, candidates};
ghost use Rattle.meaning.specs.declared.Axis.TheVariants.{Descendant, DescendantOrSelf};

use axes::{holds, in_second, is_reverse, nth, passes_test, principal};
use meaning::{Axis, Test};
use table::{end_at, is_attribute, row_count};

// Writes the candidates of an edition to the front of the list. What the functions below list are those of edition 2.
pub fn list_candidates(
    edition: usize,
    table: &[u32],
    axis: Axis,
    test: Test,
    x: usize,
    list: &mut [u16],
) -> usize
    requires { (rows table.now ≤ most_rows) × (x < 4294967296) × (rows table.now ≤ length list.old) }
    ensures { (take result list.new ≡ candidates edition table.now axis test x) × (result ≤ rows table.now) }
{
    let read = in_second(edition, test);
    match axis {
        Axis::Descendant => list_descendants(table, read, x, list),
        Axis::DescendantOrSelf => list_subtree(table, read, x, list),
        _ => list_by_scan(table, axis, read, x, list),
    }
}

// Those of any axis: each row is asked, in the order of the axis.
fn list_by_scan(table: &[u32], axis: Axis, test: Test, x: usize, list: &mut [u16]) -> usize
    requires { (rows table.now ≤ most_rows) × (x < 4294967296) × (rows table.now ≤ length list.old) }
    ensures { (take result list.new ≡ candidates 2 table.now axis test x) × (result ≤ rows table.now) }
{
    let n = row_count(table);
    let reverse = is_reverse(axis);
    let kind = principal(axis);
    let mut m = 0;
    for i in 0..n {
        let y = nth(reverse, n, i);
        if holds(table, axis, x, y) {
            list[m] = y as u16;
            m += usize::from(passes_test(table, kind, test, y));
        }
    }
    m
}

// Those of the descendant axis: the rows after x in its subtree.
fn list_descendants(table: &[u32], test: Test, x: usize, list: &mut [u16]) -> usize
    requires { (rows table.now ≤ most_rows) × (x < 4294967296) × (rows table.now ≤ length list.old) }
    ensures { (take result list.new ≡ candidates 2 table.now Descendant test x) × (result ≤ rows table.now) }
{
    let past = past_subtree(table, x);
    list_range(table, x, test, x + 1, past, list)
}

// Those of the descendant-or-self axis: the same, and x before them.
fn list_subtree(table: &[u32], test: Test, x: usize, list: &mut [u16]) -> usize
    requires { (rows table.now ≤ most_rows) × (x < 4294967296) × (rows table.now ≤ length list.old) }
    ensures { (take result list.new ≡ candidates 2 table.now DescendantOrSelf test x) × (result ≤ rows table.now) }
{
    let past = past_subtree(table, x);
    list_range(table, x, test, x, past, list)
}

// One past the last row of x's subtree, or the number of rows where that is less or x is no row.
fn past_subtree(table: &[u32], x: usize) -> usize
    requires { x < 4294967296 }
    ensures { result ≡ min (rows table.now) (end table.now x + 1) }
{
    let n = row_count(table);
    if n <= x {
        return n;
    }
    let past = end_at(table, x) + 1;
    past.min(n)
}

// Is y x itself or no attribute, and does it pass the test?
#[tactic(auto, unfolding(meaning::proofs::Ranges::own_or_plain))]
fn is_in_range(table: &[u32], x: usize, test: Test, y: usize) -> bool
    requires { y < rows table.now }
    ensures { result ≡ (own_or_plain table.now x y && passes 2 table.now 1 test y) }
{
    ((x == y) | !is_attribute(table, y)) & passes_test(table, 1, test, y)
}

// Writes the rows from one to before another that pass the test, attributes other than x left out, to the front of the list.
fn list_range(
    table: &[u32],
    x: usize,
    test: Test,
    from: usize,
    to: usize,
    list: &mut [u16],
) -> usize
    requires { (rows table.now ≤ most_rows) × (to ≤ rows table.now) × (rows table.now ≤ length list.old) }
    ensures { (take result list.new ≡ keep (λ y. own_or_plain table.now x y && passes 2 table.now 1 test y) (range (rows table.now) from to)) × (result ≤ rows table.now) }
{
    let mut m = 0;
    for y in from..to {
        list[m] = y as u16;
        m += usize::from(is_in_range(table, x, test, y));
    }
    m
}
