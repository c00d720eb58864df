// The path checker (document 01, "Numbers given back", 3 to 6): linear passes over the rows, one for each thing looked for.
#![tactic(auto)]

ghost use Rattle.std.specs.Prelude.{◌≡◌, ◌+◌, ◌<◌, ◌≤◌, length, MatchOption};
ghost use Rattle.meaning.specs.Lists.{lowest};
ghost use Rattle.meaning.specs.Rows.{rows_of, bad_literal, bad_literal_at, links_again, misplaced, broken_row};
ghost use Rattle.meaning.specs.Tree.{tree, depth};
ghost use Rattle.meaning.specs.Answers.{told};
ghost use Rattle.meaning.specs.Promises.{ChecksPath};
ghost use Rattle.path_check.specs.Passes.{Depths};

use links::{LINKS, Linked};
use meaning::Refusal;
use path::fields::{has_good_fields, is_path, is_unknown};
use path::{first_link, op_at, second_link};
use rows::Rows;

const MOST_LITERALS: usize = 64;

const MOST_DEPTH: usize = 8;

// A NaN has no bits to look at, so it is told apart first.
#[tactic(auto, unfolding(meaning::specs::Rows::bad_literal))]
fn is_bad_literal(x: f64) -> bool
    ensures { result ≡ bad_literal x }
{
    x.is_nan() || 0x7FF0000000000000 <= x.to_bits()
}

// The literal at an index; those past the 64th are not looked at.
#[tactic(auto, unfolding(meaning::specs::Rows::bad_literal_at))]
fn is_bad_literal_at(literals: &[f64], i: usize) -> bool
    requires { i < length literals.now }
    ensures { result ≡ bad_literal_at literals.now i }
{
    MOST_LITERALS <= i || is_bad_literal(literals[i])
}

// The first literal that is not allowed.
fn lowest_bad_literal(literals: &[f64]) -> Option<usize>
    ensures { MatchOption result (lowest (bad_literal_at literals.now) (length literals.now) ≡ length literals.now) (λ i. (i ≡ lowest (bad_literal_at literals.now) (length literals.now)) × (i < length literals.now) × (i ≤ 64)) }
{
    for i in 0..literals.len() {
        if is_bad_literal_at(literals, i) {
            return Some(i);
        }
    }
    None
}

// Does the row behind these link a row that one of them, or its own earlier field, links?
#[tactic(auto, unfolding(meaning::specs::Rows::links_again))]
fn links_again(lower: &Linked) -> bool
    ensures { result ≡ links_again lower.now.path.now lower.now.rows }
{
    let a = first_link(lower.path, lower.rows);
    let b = second_link(lower.path, lower.rows);
    let again = 0 < a && lower.holds(a);
    again || (0 < b && (lower.holds(b) || a == b))
}

// Is a row the last and no path, or another that no row links?
#[tactic(auto, unfolding(meaning::specs::Rows::misplaced))]
fn is_misplaced(all: &Linked, row: usize) -> bool
    requires { (all.now.rows ≡ rows_of all.now.path.now) × (row < all.now.rows) }
    ensures { result ≡ misplaced all.now.path.now row }
{
    if row + 1 == all.rows {
        !is_path(op_at(all.path, row))
    } else {
        !all.holds(row + 1)
    }
}

// Is the row behind the lower ones broken?
#[tactic(auto, unfolding(meaning::specs::Rows::broken_row))]
fn is_broken(literals: usize, all: &Linked, lower: &Linked) -> bool
    requires { (all.now.rows ≡ rows_of all.now.path.now) × (lower.now.rows < all.now.rows) × (lower.now.path.now ≡ all.now.path.now) }
    ensures { result ≡ broken_row all.now.path.now literals lower.now.rows }
{
    is_unknown(op_at(lower.path, lower.rows))
        || !has_good_fields(lower.path, literals, lower.rows)
        || links_again(lower)
        || is_misplaced(all, lower.rows)
}

// The first broken row: goes upwards with the links of the lower rows marked, beside those of all.
fn lowest_broken_row(rows: &Rows, literals: usize) -> Option<usize>
    ensures { MatchOption result (lowest (broken_row rows.now.path.now literals) rows.now.count ≡ rows.now.count) (λ r. (r ≡ lowest (broken_row rows.now.path.now literals) rows.now.count) × (r < rows.now.count)) }
{
    let mut all = Linked::by_none(rows.path);
    all.add_all(rows);
    let mut lower = Linked::by_none(rows.path);
    for row in 0..rows.count {
        if is_broken(literals, &all, &lower) {
            return Some(row);
        }
        lower.add_row();
    }
    None
}

// The depth of a row's tree from those of its links.
fn row_depth(path: &[u32], row: usize, depths: &[usize]) -> usize
    requires { (row ≤ 256) × (length depths.now ≡ 257) × Depths path.now row depths.now }
    ensures { (result ≡ depth (tree path.now (row + 1))) × (result ≤ row + 1) }
{
    let a = first_link(path, row);
    let b = second_link(path, row);
    let inner = depths[a].max(depths[b]);
    if is_path(op_at(path, row)) {
        inner + 1
    } else {
        inner
    }
}

// Links fall, so upwards each depth finds those it needs.
fn depth_of(rows: &Rows) -> usize
    ensures { result ≡ depth (tree rows.now.path.now rows.now.count) }
{
    let mut depths = [0usize; LINKS];
    for row in 0..rows.count {
        depths[row + 1] = row_depth(rows.path, row, &depths);
    }
    depths[rows.count]
}

// Is a path accepted, and of how many rows? The first check that applies refuses it.
pub fn check_path(path: &[u32], literals: &[f64]) -> Result<u32, Refusal>
    ensures { ChecksPath path.now literals.now (told result) }
{
    let Some(rows) = Rows::of(path) else {
        return Err(Refusal::PathLength);
    };
    if let Some(i) = lowest_bad_literal(literals) {
        return Err(Refusal::BadLiteral(i as u32));
    }
    if let Some(row) = lowest_broken_row(&rows, literals.len()) {
        return Err(Refusal::BrokenPathRow(row as u32));
    }
    if MOST_DEPTH < depth_of(&rows) {
        return Err(Refusal::TooDeep);
    }
    Ok(rows.count as u32)
}

mod links;
mod rows;
