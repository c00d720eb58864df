// A set of nodes as marks: mark y says whether node y is in the set. Lists of nodes are the marked rows, ascending. Marks are joined by &
// and |, which read both sides, so that no branch hangs on a mark. Sets stay slices with a clause on their length: a set of an old limit
// has to fail a proof and not a type.
#![tactic(auto)]

ghost use Rattle.std.specs.Prelude.{◌≡◌, false, cond, ◌||◌, ◌++◌, ℕ, ◌<◌, ◌≤◌, length, get_or, take, drop};
ghost use Rattle.meaning.specs.Lists.{has};
ghost use Rattle.meaning.specs.Table.{rows, most_rows};
ghost use Rattle.meaning.specs.Meaning.{start_of, is_absolute};
ghost use Rattle.meaning.specs.Answers.{told, handed, output};
ghost use Rattle.meaning.proofs.Marks.{listed};
ghost use Rattle.marks.specs.Sets.{Sifted, Met, Joined};

use axes::{in_second, passes_test, principal};
use meaning::{Axis, Op, Refusal, Test};
use sieve::each;
use table::row_count;

// The row that a path of this op starts from: row 0 where it is absolute, else the one given.
#[tactic(auto, unfolding(meaning::specs::Meaning::is_absolute, meaning::specs::Rows::code))]
fn start_row(op: Op, start: usize) -> usize
    ensures { result ≡ cond (is_absolute op) 0 start }
{
    if op == Op::Absolute { 0 } else { start }
}

// Marks the start of a path of this op, where nothing is marked yet.
pub fn start_mark(table: &[u32], op: Op, start: usize, marks: &mut [bool])
    requires room { rows table.now ≤ length marks.old }
    requires unmarked { (y : ℕ) → get_or marks.old y false ≡ false }
    ensures { listed table.now marks.new ≡ start_of table.now op start }
{
    let x = start_row(op, start);
    if x < marks.len() {
        marks[x] = true;
    }
}

// Marks the first n nodes of the list.
pub fn add_marks(list: &[u16], n: usize, marks: &mut [bool])
    requires { n ≤ length list.now }
    ensures { (y : ℕ) → y < length marks.old → get_or marks.new y false ≡ (get_or marks.old y false || has (take n list.now) y) }
{
    for node in &list[..n] {
        let y = *node as usize;
        if y < marks.len() {
            marks[y] = true;
        }
    }
}

// The rows that are marked in one set, and no others, are marked in the other.
pub fn copy_marks(table: &[u32], from: &[bool], to: &mut [bool])
    requires { (rows table.now ≤ length from.now) × (rows table.now ≤ length to.old) }
    ensures { listed table.now to.new ≡ listed table.now from.now }
{
    let n = row_count(table);
    to[..n].copy_from_slice(&from[..n]);
}

// Of the marked rows those stay marked that pass the test, where `*` and names match the axis's kind.
fn keep_passing(table: &[u32], axis: Axis, test: Test, marks: &mut [bool])
    requires { (rows table.now ≤ most_rows) × (rows table.now ≤ length marks.old) }
    ensures { Sifted 2 table.now axis test marks.old marks.new }
{
    let kind = principal(axis);
    each(
        marks,
        row_count(table),
        |y, marked| marked & passes_test(table, kind, test, y),
    );
}

// Of the marked rows those stay marked that pass, in an edition, the test of a step on this axis. Each test is named where its rows are
// asked, so that it has a loop of its own, in which no row looks up which test it is.
pub fn sift(edition: usize, table: &[u32], axis: Axis, test: Test, marks: &mut [bool])
    requires { (rows table.now ≤ most_rows) × (rows table.now ≤ length marks.old) }
    ensures { Sifted edition table.now axis test marks.old marks.new }
{
    match in_second(edition, test) {
        // Every row passes it.
        Test::AnyNode => {}
        Test::Star => keep_passing(table, axis, Test::Star, marks),
        Test::Text => keep_passing(table, axis, Test::Text, marks),
        Test::Comment => keep_passing(table, axis, Test::Comment, marks),
        Test::Instruction => keep_passing(table, axis, Test::Instruction, marks),
        Test::Named(name) => keep_passing(table, axis, Test::Named(name), marks),
    }
}

// Of the marked rows those stay marked that are marked in the other set too.
pub fn meet(table: &[u32], others: &[bool], marks: &mut [bool])
    requires { (rows table.now ≤ length others.now) × (rows table.now ≤ length marks.old) }
    ensures { Met table.now others.now marks.old marks.new }
{
    each(marks, row_count(table), |y, marked| marked & others[y]);
}

// The rows that are marked in the other set are marked too.
pub fn join(table: &[u32], others: &[bool], marks: &mut [bool])
    requires { (rows table.now ≤ length others.now) × (rows table.now ≤ length marks.old) }
    ensures { Joined table.now others.now marks.old marks.new }
{
    each(marks, row_count(table), |y, marked| marked | others[y]);
}

// How many rows are marked. By a `for`: a filter and a count took nine times as long.
pub fn count_marks(table: &[u32], marks: &[bool]) -> usize
    requires { rows table.now ≤ length marks.now }
    ensures { (result ≡ length (listed table.now marks.now)) × (result ≤ rows table.now) }
{
    let mut m = 0;
    for marked in &marks[..row_count(table)] {
        if *marked {
            m += 1;
        }
    }
    m
}

// Writes the marked rows, ascending, at the front of a list that has room for them; the rest stays.
fn list_marks(table: &[u32], marks: &[bool], list: &mut [u32])
    requires { (rows table.now ≤ most_rows) × (rows table.now ≤ length marks.now) × (length (listed table.now marks.now) ≤ length list.old) }
    ensures { list.new ≡ listed table.now marks.now ++ drop (length (listed table.now marks.now)) list.old }
{
    let n = row_count(table);
    let mut m = 0;
    for (y, marked) in marks[..n].iter().enumerate() {
        if *marked {
            list[m] = y as u32;
            m += 1;
        }
    }
}

// Gives how many rows are marked, and they stand at the front of the output, or refuses where it has no room for them.
pub fn give_marks(table: &[u32], marks: &[bool], out: &mut [u32]) -> Result<u32, Refusal>
    requires { (rows table.now ≤ most_rows) × (rows table.now ≤ length marks.now) }
    ensures { (told result ≡ handed (listed table.now marks.now) (length out.old)) × (out.new ≡ output (told result) (listed table.now marks.now) out.old) }
{
    let n = count_marks(table, marks);
    if out.len() < n {
        return Err(Refusal::NoRoom(n as u32));
    }
    list_marks(table, marks, out);
    Ok(n as u32)
}
