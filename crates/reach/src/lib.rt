// The union of an axis over a set of nodes, as marks, in place, in one pass over the rows (each step takes every node of the set so
// far, and the union goes on). A pass carries what it has gathered from the marked rows behind it: the furthest end, the nearest row,
// or a flag for each parent. It reads a row's mark before it writes it. Two axes take a loop to find the bound, the least end or the last
// row, and a loop to mark by it: then no row waits for the one before. Tests are joined by & and |, which read both sides, so that no
// branch hangs on a mark, but that on which the search for the last row ends.
#![tactic(auto)]

ghost use Rattle.std.specs.Prelude.{◌≡◌, true, false, ◌&&◌, ◌||◌, ℕ, ◌<◌, ◌≤◌, ltb, eqb, length, get_or, slice_set};
ghost use Rattle.meaning.specs.Table.{most_rows, rows, parent_of, end};
ghost use Rattle.meaning.specs.Axis.{under, inside, after, on};
ghost use Rattle.meaning.specs.declared.Axis.TheVariants.{FollowingSibling, PrecedingSibling};
ghost use Rattle.reach.specs.declared.Asked.TheVariants.{Plain};
ghost use Rattle.reach.specs.Reach.{Hits, Room, admitted, hit};

use meaning::{Axis, MOST_ROWS};
use table::{end_at, is_attribute, parent_at, row_count};

// A number that no subtree's end reaches, the least of no rows. No Option: it would be matched at every row, where one comparison serves.
const BEYOND: usize = 8589934592;

// The rows that are asked for: all, all but attributes, or attributes alone.
#[derive(Clone, Copy)]
enum Asked {
    All,
    Plain,
    Attributes,
}

// Is row i one of those asked for?
#[tactic(auto, unfolding(crate::specs::Reach::admitted))]
fn admits(table: &[u32], asked: Asked, i: usize) -> bool
    requires { i < rows table.now }
    ensures { result ≡ admitted table.now asked i }
{
    match asked {
        Asked::All => true,
        Asked::Plain => !is_attribute(table, i),
        Asked::Attributes => is_attribute(table, i),
    }
}

// A row is marked if its parent was and it is one of those taken, from the last row down. Row 0 is nobody's child.
fn mark_under(table: &[u32], taken: Asked, marks: &mut [bool])
    requires { Room table.now marks.old }
    ensures { Hits table.now (λ x y. under table.now x y && admitted table.now taken y) marks.old marks.new }
{
    for i in (0..row_count(table)).rev() {
        let marked = marks[parent_at(table, i)];
        marks[i] = (0 < i) & marked & admits(table, taken, i);
    }
}

// Each marked row that is one of those that give hands its mark to its parent, which stands before it.
fn mark_over(table: &[u32], given: Asked, marks: &mut [bool])
    requires { Room table.now marks.old }
    ensures { Hits table.now (λ x y. admitted table.now given x && under table.now y x) marks.old marks.new }
{
    for i in 0..row_count(table) {
        let p = parent_at(table, i);
        let handed = marks[i] & admits(table, given, i) & (0 < i);
        marks[i] = false;
        marks[p] = marks[p] | handed;
    }
}

// What the next four gather stands apart: each goes its own way over the rows and gathers another number.
// The rows inside a marked one that are taken, and the marked rows themselves where own: before the furthest end of a marked row behind.
fn mark_inside(table: &[u32], own: bool, taken: Asked, marks: &mut [bool])
    requires { Room table.now marks.old }
    ensures { Hits table.now (λ x y. (own && eqb x y) || (inside table.now x y && admitted table.now taken y)) marks.old marks.new }
{
    let mut far = 0;
    for i in 0..row_count(table) {
        let marked = marks[i];
        let past = end_at(table, i) + 1;
        let reached = (i < far) & admits(table, taken, i);
        marks[i] = (own & marked) | reached;
        if marked & (far < past) {
            far = past;
        }
    }
}

// The rows around a marked one that gives, and the marked rows themselves where own: the nearest such row after them is not past their end.
fn mark_around(table: &[u32], own: bool, given: Asked, marks: &mut [bool])
    requires { Room table.now marks.old }
    ensures { Hits table.now (λ x y. (own && eqb x y) || (admitted table.now given x && inside table.now y x)) marks.old marks.new }
{
    let mut near = BEYOND;
    for i in (0..row_count(table)).rev() {
        let marked = marks[i];
        let reached = near < end_at(table, i) + 1;
        let counted = marked & admits(table, given, i);
        if counted & (i < near) {
            near = i;
        }
        marks[i] = (own & marked) | reached;
    }
}

// The least end of the marked rows that give. The end is read first and then chosen, so that the choice is no branch.
fn least_end(table: &[u32], given: Asked, from: &[bool]) -> usize
    requires { (rows table.now ≤ most_rows) × (rows table.now ≤ length from.now) }
    ensures { (y : ℕ) → y < rows table.now → ltb result y ≡ hit table.now (λ x z. admitted table.now given x && after table.now x z) from.now y }
{
    let mut low = BEYOND;
    for i in 0..row_count(table) {
        let counted = from[i] & admits(table, given, i);
        let past = end_at(table, i);
        let end = if counted { past } else { BEYOND };
        if end < low {
            low = end;
        }
    }
    low
}

// The last of the marked rows that give: the first that is met from the last row down.
fn last_marked(table: &[u32], given: Asked, from: &[bool]) -> usize
    requires { (rows table.now ≤ most_rows) × (rows table.now ≤ length from.now) }
    ensures { (y : ℕ) → ltb (end table.now y) result ≡ hit table.now (λ x z. admitted table.now given x && after table.now z x) from.now y }
{
    let mut high = 0;
    for i in (0..row_count(table)).rev() {
        if from[i] & admits(table, given, i) {
            high = i;
            break;
        }
    }
    high
}

// The rows that are taken after a marked one that gives, and not inside it: past the least end of such a row.
fn mark_after(table: &[u32], given: Asked, taken: Asked, marks: &mut [bool])
    requires { Room table.now marks.old }
    ensures { Hits table.now (λ x y. (admitted table.now given x && after table.now x y) && admitted table.now taken y) marks.old marks.new }
{
    let low = least_end(table, given, marks);
    for i in 0..row_count(table) {
        marks[i] = (low < i) & admits(table, taken, i);
    }
}

// The rows that are taken before a marked one that gives, and not around it: they end before the last such row.
fn mark_before(table: &[u32], given: Asked, taken: Asked, marks: &mut [bool])
    requires { Room table.now marks.old }
    ensures { Hits table.now (λ x y. (admitted table.now given x && after table.now y x) && admitted table.now taken y) marks.old marks.new }
{
    let high = last_marked(table, given, marks);
    for i in 0..row_count(table) {
        marks[i] = (end_at(table, i) < high) & admits(table, taken, i);
    }
}

// Passes a row among its siblings: it is marked if one of them that was passed was, and flags their parent if it was itself. Row 0 has no
// siblings, and no attribute has.
fn pass_sibling(table: &[u32], i: usize, seen: &mut [bool], marks: &mut [bool])
    requires { (i < rows table.now) × (i < length marks.old) × (parent_of table.now i < length seen.old) }
    ensures marked { marks.new ≡ slice_set marks.old i (get_or seen.old (parent_of table.now i) false && (ltb 0 i && admitted table.now Plain i)) }
    ensures flagged { seen.new ≡ slice_set seen.old (parent_of table.now i) (get_or seen.old (parent_of table.now i) false || (get_or marks.old i false && (ltb 0 i && admitted table.now Plain i))) }
{
    let p = parent_at(table, i);
    let sibling = (0 < i) & admits(table, Asked::Plain, i);
    let passed = seen[p];
    seen[p] = passed | (marks[i] & sibling);
    marks[i] = passed & sibling;
}

// A row is marked if a marked sibling was passed: seen has a flag for each parent.
fn mark_later_siblings(table: &[u32], marks: &mut [bool])
    requires { Room table.now marks.old }
    ensures { Hits table.now (on table.now FollowingSibling) marks.old marks.new }
{
    let mut seen = [false; MOST_ROWS];
    for i in 0..row_count(table) {
        pass_sibling(table, i, &mut seen, marks);
    }
}

// The same from the last row down: what the loop keeps is of the rows after i, so the two orders stay two loops over one body.
fn mark_earlier_siblings(table: &[u32], marks: &mut [bool])
    requires { Room table.now marks.old }
    ensures { Hits table.now (on table.now PrecedingSibling) marks.old marks.new }
{
    let mut seen = [false; MOST_ROWS];
    for i in (0..row_count(table)).rev() {
        pass_sibling(table, i, &mut seen, marks);
    }
}

// Table and marks stay two slices, with Room to say what is asked of them: a mark array of an old limit has to fail a proof and not a type,
// and the same marks are lent to other passes between.

// Marks the rows that are on the axis of some row that was marked, and no others. On self every set stays as it is.
#[tactic(auto, unfolding(meaning::specs::Axis::on, crate::specs::Reach::admitted, crate::specs::Reach::Hits, crate::specs::Reach::hit))]
pub fn reach(table: &[u32], axis: Axis, marks: &mut [bool])
    requires { Room table.now marks.old }
    ensures { Hits table.now (on table.now axis) marks.old marks.new }
{
    match axis {
        Axis::Itself => {}
        Axis::Child => mark_under(table, Asked::Plain, marks),
        Axis::Parent => mark_over(table, Asked::All, marks),
        Axis::Descendant => mark_inside(table, false, Asked::Plain, marks),
        Axis::Ancestor => mark_around(table, false, Asked::All, marks),
        Axis::DescendantOrSelf => mark_inside(table, true, Asked::Plain, marks),
        Axis::AncestorOrSelf => mark_around(table, true, Asked::All, marks),
        Axis::Following => mark_after(table, Asked::All, Asked::Plain, marks),
        Axis::Preceding => mark_before(table, Asked::All, Asked::Plain, marks),
        Axis::FollowingSibling => mark_later_siblings(table, marks),
        Axis::PrecedingSibling => mark_earlier_siblings(table, marks),
        Axis::Attribute => mark_under(table, Asked::Attributes, marks),
    }
}

// Marks the rows that have on this axis some row that was marked, and no others. An attribute is left out where the axis leaves it out:
// of the rows that were marked.
pub fn reach_back(table: &[u32], axis: Axis, marks: &mut [bool])
    requires { Room table.now marks.old }
    ensures { Hits table.now (λ y x. on table.now axis x y) marks.old marks.new }
{
    match axis {
        Axis::Itself => {}
        Axis::Child => mark_over(table, Asked::Plain, marks),
        Axis::Parent => mark_under(table, Asked::All, marks),
        Axis::Descendant => mark_around(table, false, Asked::Plain, marks),
        Axis::Ancestor => mark_inside(table, false, Asked::All, marks),
        Axis::DescendantOrSelf => mark_around(table, true, Asked::Plain, marks),
        Axis::AncestorOrSelf => mark_inside(table, true, Asked::All, marks),
        Axis::Following => mark_before(table, Asked::Plain, Asked::All, marks),
        Axis::Preceding => mark_after(table, Asked::Plain, Asked::All, marks),
        Axis::FollowingSibling => mark_earlier_siblings(table, marks),
        Axis::PrecedingSibling => mark_later_siblings(table, marks),
        Axis::Attribute => mark_over(table, Asked::Attributes, marks),
    }
}
