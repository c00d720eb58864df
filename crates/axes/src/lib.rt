// Is a node on an axis of another, in which order does the axis run, and does a node pass a test: each equal to its definition (document
// 01, "Meaning"). Tests are those of edition 2; a test of another edition is read as one of them first (document 02, W-210).
#![tactic(auto)]

ghost use Rattle.std.specs.Prelude.{◌≡◌, ◌-◌, ◌<◌, get_or};
ghost use Rattle.meaning.specs.Table.{rows, parent_of, end, is_attribute};
ghost use Rattle.meaning.specs.Axis.{under, inside, after, on, axis_of, passes, test_of, is_reverse, ordered};
ghost use Rattle.meaning.specs.declared.Axis.TheVariants.{Descendant, FollowingSibling};
ghost use Rattle.axes.specs.Second.{in_second};

use basics::entry;
use meaning::{Axis, Test};
use table::{Kind, kind_at, name_at, node_kind};

// The parent of any number, and the end of its subtree: of no row both read 0 for what is stored.
fn any_parent(table: &[u32], i: usize) -> usize
    requires { i < 4294967296 }
    ensures { result ≡ parent_of table.now i }
{
    entry(table, 4 * i + 2)
}

fn any_end(table: &[u32], i: usize) -> usize
    requires { i < 4294967296 }
    ensures { result ≡ end table.now i }
{
    i + entry(table, 4 * i + 3)
}

// Is any number an attribute's?
#[tactic(auto, using(table::proofs::Numbers::same_kind), unfolding(meaning::specs::Table::is_attribute))]
fn any_attribute(table: &[u32], i: usize) -> bool
    requires { i < 4294967296 }
    ensures { result ≡ is_attribute table.now i }
{
    Kind::from(entry(table, 4 * i)) == Kind::Attribute
}

// Is x the parent of y? Row 0 has none.
#[tactic(auto, unfolding(meaning::specs::Axis::under))]
fn is_under(table: &[u32], x: usize, y: usize) -> bool
    requires { y < 4294967296 }
    ensures { result ≡ under table.now x y }
{
    0 < y && any_parent(table, y) == x
}

// Does y stand inside x?
#[tactic(auto, unfolding(meaning::specs::Axis::inside))]
fn is_inside(table: &[u32], x: usize, y: usize) -> bool
    requires { x < 4294967296 }
    ensures { result ≡ inside table.now x y }
{
    x < y && y <= any_end(table, x)
}

// Is y later than x and not inside it?
#[tactic(auto, unfolding(meaning::specs::Axis::after))]
fn is_after(table: &[u32], x: usize, y: usize) -> bool
    requires { x < 4294967296 }
    ensures { result ≡ after table.now x y }
{
    x < y && !is_inside(table, x, y)
}

// Is y a later sibling of x? Row 0 has no siblings, and no attribute has.
#[tactic(auto, unfolding(meaning::specs::Axis::on, meaning::specs::Table::sibling_before))]
fn is_later_sibling(table: &[u32], x: usize, y: usize) -> bool
    requires { (x < 4294967296) × (y < 4294967296) }
    ensures { result ≡ on table.now FollowingSibling x y }
{
    let later = 0 < x && x < y;
    let of_one = later && any_parent(table, x) == any_parent(table, y);
    of_one && !any_attribute(table, y) && !any_attribute(table, x)
}

// Is y a descendant of x? Attributes are none.
#[tactic(auto, unfolding(meaning::specs::Axis::on))]
fn is_descendant(table: &[u32], x: usize, y: usize) -> bool
    requires { (x < 4294967296) × (y < 4294967296) }
    ensures { result ≡ on table.now Descendant x y }
{
    is_inside(table, x, y) && !any_attribute(table, y)
}

// Is y on the axis of x?
#[tactic(auto, unfolding(meaning::specs::Axis::on))]
pub fn holds(table: &[u32], axis: Axis, x: usize, y: usize) -> bool
    requires { (x < 4294967296) × (y < 4294967296) }
    ensures { result ≡ on table.now axis x y }
{
    match axis {
        Axis::Itself => x == y,
        Axis::Child => is_under(table, x, y) && !any_attribute(table, y),
        Axis::Parent => is_under(table, y, x),
        Axis::Descendant => is_descendant(table, x, y),
        Axis::Ancestor => is_inside(table, y, x),
        Axis::DescendantOrSelf => x == y || is_descendant(table, x, y),
        Axis::AncestorOrSelf => x == y || is_inside(table, y, x),
        Axis::Following => is_after(table, x, y) && !any_attribute(table, y),
        Axis::Preceding => is_after(table, y, x) && !any_attribute(table, y),
        Axis::FollowingSibling => is_later_sibling(table, x, y),
        Axis::PrecedingSibling => is_later_sibling(table, y, x),
        Axis::Attribute => is_under(table, x, y) && any_attribute(table, y),
    }
}

// Does the axis run against document order?
#[tactic(auto, unfolding(meaning::specs::Axis::is_reverse))]
pub fn is_reverse(axis: Axis) -> bool
    ensures { result ≡ is_reverse axis }
{
    matches!(
        axis,
        Axis::Parent
            | Axis::Ancestor
            | Axis::AncestorOrSelf
            | Axis::Preceding
            | Axis::PrecedingSibling
    )
}

// The i-th of n rows in document order, or in reverse.
pub fn nth(reverse: bool, n: usize, i: usize) -> usize
    requires { i < n }
    ensures { (result ≡ get_or (ordered reverse n) i 0) × (result < n) }
{
    if reverse { n - 1 - i } else { i }
}

// The kind that `*` and names match on the axis: attributes on the attribute axis, elements on all others. A number, as the definition of
// `passes` takes a kind by any number, and Kind has none for those above 5.
#[tactic(auto, unfolding(meaning::specs::Axis::principal))]
pub fn principal(axis: Axis) -> usize
    ensures { result ≡ Rattle.meaning.specs.Axis.principal axis }
{
    if axis == Axis::Attribute { 5 } else { 1 }
}

// The test that says in edition 2 what a test says in an edition: node() for the `*` of edition 1.
#[tactic(auto, unfolding(crate::specs::Second::in_second))]
pub fn in_second(edition: usize, test: Test) -> Test
    ensures { result ≡ in_second edition test }
{
    match test {
        Test::Star if edition == 1 => Test::AnyNode,
        _ => test,
    }
}

// Does node y pass the test, where `*` and names match this kind? A name's two tests are joined by &, which reads both sides, so that no
// branch hangs on a row's kind.
#[tactic(auto, using(table::proofs::Numbers::same_kind), unfolding(meaning::specs::Axis::passes, meaning::specs::Table::is_text))]
pub fn passes_test(table: &[u32], kind: usize, test: Test, y: usize) -> bool
    requires { y < rows table.now }
    ensures { result ≡ passes 2 table.now kind test y }
{
    match test {
        Test::AnyNode => true,
        Test::Star => kind_at(table, y) == kind,
        Test::Text => node_kind(table, y) == Kind::Text,
        Test::Comment => node_kind(table, y) == Kind::Comment,
        Test::Instruction => node_kind(table, y) == Kind::Instruction,
        Test::Named(name) => (kind_at(table, y) == kind) & (name_at(table, y) == name),
    }
}
