// The table checker (document 01, "The node table" and "Numbers given back"; document 02, W-206 and W-209): one look for the first element
// and one pass over the rows, begun again at an attribute whose name is none of the few; sums in 64 bits.
#![tactic(auto)]

ghost use Rattle.std.specs.Prelude.{◌≡◌, true, false, not, Some, ◌+◌, ◌<◌, ◌≤◌};
ghost use Rattle.meaning.specs.Table.{rows, most_rows, kind, name, size, length_allowed, good_name, is_element, text_of_root, later_element, text_after_text, among_attributes, is_attribute, broken};
ghost use Rattle.meaning.specs.Answers.{told};
ghost use Rattle.meaning.specs.Promises.{ChecksTable};
ghost use Rattle.table_check.specs.Next.{first_element, good_numbers, well_placed, Lowest, RootIs};
ghost use Rattle.table_check.specs.Names.{unlisted, stopped};
ghost use Rattle.table_check.specs.Passes.{Passing};

use meaning::{MOST_ROWS, Refusal};
use table::{
    Kind, end_at, is_attribute, kind_at, name_at, node_kind, parent_at, row_count, size_at,
};

// The largest name.
const MOST_NAME: usize = 65535;

// Room for each name up to the largest.
const ALL_NAMES: usize = MOST_NAME + 1;

// Names below this are few enough to be looked up in a short array.
const FEW_NAMES: usize = 4096;

// 1 to 8,192 rows, and a multiple of 4.
#[tactic(auto, unfolding(meaning::specs::Table::length_within))]
fn length_allowed(table: &[u32]) -> bool
    ensures { result ≡ length_allowed table.now }
{
    let n = row_count(table);
    table.len() % 4 == 0 && 1 <= n && n <= MOST_ROWS
}

// The lowest row that is an element.
#[tactic(auto, using(table::proofs::Numbers::same_kind))]
fn first_element(table: &[u32]) -> Option<usize>
    ensures { Lowest (is_element table.now) (rows table.now) result }
{
    for i in 0..row_count(table) {
        if node_kind(table, i) == Kind::Element {
            return Some(i);
        }
    }
    None
}

// Is row 0 as a root is, but for its elements: kind 0, name 0, parent 0, size rows minus 1? Then the first element, if there is one.
#[tactic(auto, using(table::proofs::Numbers::same_kind))]
fn good_root(table: &[u32]) -> Option<usize>
    requires { 0 < rows table.now }
    ensures { RootIs table.now result }
{
    let first = first_element(table)?;
    let plain = node_kind(table, 0) == Kind::Root && name_at(table, 0) == 0;
    let placed = parent_at(table, 0) == 0 && size_at(table, 0) == row_count(table) - 1;
    if plain && placed { Some(first) } else { None }
}

// Is row i's name as its kind has it: from 1 to 65,535 for elements, instructions and attributes, else 0?
#[tactic(auto, using(table::proofs::Numbers::same_kind), unfolding(meaning::specs::Table::good_name))]
fn good_name(table: &[u32], i: usize) -> bool
    requires { i < rows table.now }
    ensures { result ≡ good_name (kind table.now i) (name table.now i) }
{
    let kind = node_kind(table, i);
    let name = name_at(table, i);
    if kind == Kind::Element || kind == Kind::Instruction || kind == Kind::Attribute {
        1 <= name && name <= MOST_NAME
    } else {
        name == 0
    }
}

// Are row i's own numbers sound: a kind from 1 to 5, a name as it has it, and a size for elements alone? Its kind by number, where one range
// is faster than two kinds. Its size by |, which reads both sides, so that no branch hangs on which rows are elements.
#[tactic(auto, using(table::proofs::Numbers::same_kind), unfolding(meaning::specs::Table::good_size))]
fn good_numbers(table: &[u32], i: usize) -> bool
    requires { i < rows table.now }
    ensures { result ≡ good_numbers (kind table.now i) (name table.now i) (size table.now i) }
{
    let number = kind_at(table, i);
    let known = 1 <= number && number <= 5;
    known
        && good_name(table, i)
        && ((node_kind(table, i) == Kind::Element) | (size_at(table, i) == 0))
}

// Is row i a text child of the root?
#[tactic(auto, using(table::proofs::Numbers::same_kind), unfolding(meaning::specs::Table::text_of_root))]
fn text_of_root(table: &[u32], i: usize) -> bool
    requires { i < rows table.now }
    ensures { result ≡ text_of_root table.now i }
{
    node_kind(table, i) == Kind::Text && parent_at(table, i) == 0
}

// Does row i stand straight after its element, or after another attribute of it? By & and |, so that no branch hangs on which.
#[tactic(auto, using(table::proofs::Numbers::same_kind), unfolding(meaning::specs::Table::among_attributes))]
fn among_attributes(table: &[u32], i: usize) -> bool
    requires { (0 < i) × (i < rows table.now) }
    ensures { result ≡ among_attributes table.now i }
{
    let kind = node_kind(table, i - 1);
    let parent = parent_at(table, i);
    let first = (kind == Kind::Element) & (parent == i - 1);
    let next = (kind == Kind::Attribute) & (parent == parent_at(table, i - 1));
    first | next
}

// Is row i an attribute whose name is not below this number?
#[tactic(auto, unfolding(crate::specs::Names::unlisted))]
fn is_unlisted(table: &[u32], names: usize, i: usize) -> bool
    requires { i < rows table.now }
    ensures { result ≡ unlisted table.now names i }
{
    is_attribute(table, i) && names <= name_at(table, i)
}

// A pass over the rows behind a sound root, with room for attributes' names below NAMES. Once it is through it stands at the row count, so
// that it stands at a row is asked where it has to.
#[derive(Drop)]
struct Pass<'a, const NAMES: usize> {
    table: &'a [u32],
    // The table's first element.
    first: usize,
    // The row that is looked at next.
    row: usize,
    // For each row before it the last row of its subtree that was passed: its next child must stand right behind that.
    last: [u16; MOST_ROWS],
    // For each name the last element before it with an attribute of that name.
    seen: [u16; NAMES],
    ghost stands: { (0 < row) × (row ≤ rows table.now) × (rows table.now ≤ most_rows) × (first ≡ first_element table.now) },
    ghost knows: { ∥ Passing table.now NAMES row last seen ∥₁ },
}

impl<'a, const NAMES: usize> Pass<'a, NAMES> {
    // Are the row's own numbers and its parent as the rules have them? It stands where its parent's next child must, and ends inside it.
    fn is_well_placed(&self) -> bool
        requires { self.now.row < rows self.now.table.now }
        ensures { result ≡ well_placed self.now.table.now self.now.row }
    {
        let parent = parent_at(self.table, self.row);
        if self.row <= parent {
            return false;
        }
        let inside = end_at(self.table, self.row) <= end_at(self.table, parent);
        let stands = self.last[parent] as usize + 1 == self.row;
        good_numbers(self.table, self.row) && inside && stands
    }

    // Is the row an element child of the root after another? The table's first element is one, so every later one is.
    #[tactic(auto, using(table::proofs::Numbers::same_kind))]
    fn is_later_element(&self) -> bool
        requires { self.now.row < rows self.now.table.now }
        ensures { result ≡ later_element self.now.table.now self.now.row }
    {
        let element = node_kind(self.table, self.row) == Kind::Element;
        element && parent_at(self.table, self.row) == 0 && self.first < self.row
    }

    // Is the row a text whose previous sibling is text? A text has nothing inside it, so that sibling is the row before.
    #[tactic(auto, using(table::proofs::Numbers::same_kind))]
    fn is_text_after_text(&self) -> bool
        requires { (self.now.row < rows self.now.table.now) × (well_placed self.now.table.now self.now.row ≡ true) }
        ensures { result ≡ text_after_text self.now.table.now self.now.row }
    {
        let before = self.row - 1;
        node_kind(self.table, self.row) == Kind::Text
            && node_kind(self.table, before) == Kind::Text
            && parent_at(self.table, before) == parent_at(self.table, self.row)
    }

    // May the row, an attribute, be passed? No later attribute has an earlier element, so the row's own element stands in seen exactly if
    // it has the name already.
    fn may_pass_attribute(&self) -> bool
        requires { (self.now.row < rows self.now.table.now) × (well_placed self.now.table.now self.now.row ≡ true) × (is_attribute self.now.table.now self.now.row ≡ true) }
        ensures { result ≡ not (stopped self.now.table.now NAMES self.now.row) }
    {
        if is_unlisted(self.table, NAMES, self.row) {
            return false;
        }
        if !among_attributes(self.table, self.row) {
            return false;
        }
        let last = self.seen[name_at(self.table, self.row)] as usize;
        last != parent_at(self.table, self.row)
    }

    // May the row be passed: is it as the rules have it, with room for its name? Few rows are children of the root, and few are texts: the
    // others are done after three tests.
    fn may_pass(&self) -> bool
        requires { self.now.row < rows self.now.table.now }
        ensures { result ≡ not (stopped self.now.table.now NAMES self.now.row) }
    {
        if !self.is_well_placed() {
            return false;
        }
        if is_attribute(self.table, self.row) {
            return self.may_pass_attribute();
        }
        if parent_at(self.table, self.row) == 0 {
            return !text_of_root(self.table, self.row) && !self.is_later_element();
        }
        !self.is_text_after_text()
    }

    // Passes the row, which is sound: its own first child must stand right behind it, and its parent's next one behind its subtree; if it is
    // an attribute, its element is the last one with its name.
    fn pass(&mut self)
        requires { (self.old.row < rows self.old.table.now) × (stopped self.old.table.now NAMES self.old.row ≡ false) }
        ensures { (self.new.table ≡ self.old.table) × (self.new.row ≡ self.old.row + 1) }
    {
        let row = self.row;
        let parent = parent_at(self.table, row);
        self.last[row] = row as u16;
        self.last[parent] = end_at(self.table, row) as u16;
        // By hand and no `for`: what a pass knows is of its own row.
        self.row += 1;
        if is_attribute(self.table, row) {
            self.seen[name_at(self.table, row)] = parent as u16;
        }
    }
}

// The lowest row behind a sound root that is broken or whose name has no room. The root's first child must stand at row 1.
fn lowest_stop<const NAMES: usize>(table: &[u32], first: usize) -> Option<usize>
    requires { (0 < rows table.now) × (rows table.now ≤ most_rows) × RootIs table.now (Some first) × (NAMES ≤ 65536) }
    ensures { Lowest (stopped table.now NAMES) (rows table.now) result }
{
    let mut pass: Pass<NAMES> = Pass {
        table,
        first,
        row: 1,
        last: [0; MOST_ROWS],
        seen: [0; NAMES],
    };
    for row in 1..row_count(table) {
        if !pass.may_pass() {
            return Some(row);
        }
        pass.pass();
    }
    None
}

// The lowest broken row. Clearing room for all names takes longer than the pass over a small table: only a table with a name that is none of
// the few needs it, and there the pass begins again.
fn lowest_broken_row(table: &[u32]) -> Option<usize>
    requires { (0 < rows table.now) × (rows table.now ≤ most_rows) }
    ensures { Lowest (broken table.now) (rows table.now) result }
{
    let Some(first) = good_root(table) else {
        return Some(0);
    };
    let row = lowest_stop::<FEW_NAMES>(table, first)?;
    if is_unlisted(table, FEW_NAMES, row) {
        return lowest_stop::<ALL_NAMES>(table, first);
    }
    Some(row)
}

// The row count of an accepted table; else that its length is not allowed, or its lowest broken row.
pub fn check_table(table: &[u32]) -> Result<u32, Refusal>
    ensures { ChecksTable table.now (told result) }
{
    if !length_allowed(table) {
        return Err(Refusal::TableLength);
    }
    match lowest_broken_row(table) {
        Some(row) => Err(Refusal::BrokenRow(row as u32)),
        None => Ok(row_count(table) as u32),
    }
}
