// Which predicates count (document 01, "Turning round"): those that are numbers, or hold op 2 or 3 not inside a path of their own;
// and what of a path needs a look at each node, a choice of the evaluator's.
#![tactic(auto)]

ghost use Rattle.std.specs.Prelude.{◌≡◌};
ghost use Rattle.meaning.specs.Tree.{tree};
ghost use Rattle.meaning.specs.Turning as turning;
ghost use Rattle.counting.specs.Heavy.{heavy};

use meaning::Op;
use path::fields::is_number;
use path::{first_link, op_at, second_link};

// Is the op position() or last()?
#[tactic(auto, unfolding(meaning::specs::Turning::contextual, meaning::specs::Rows::code))]
fn is_contextual(op: Op) -> bool
    ensures { result ≡ turning.contextual op }
{
    matches!(op, Op::Position | Op::Last)
}

// Is it over a path of its own?
#[tactic(auto, unfolding(meaning::specs::Turning::over_path, meaning::specs::Rows::code))]
pub fn is_over_path(op: Op) -> bool
    ensures { result ≡ turning.over_path op }
{
    matches!(op, Op::Exists | Op::Count)
}

// Is the expression a number?
#[tactic(auto, using(meaning::proofs::Trees::tree_row, meaning::proofs::Trees::tree_zero), unfolding(meaning::specs::Turning::numeric))]
fn is_numeric(path: &[u32], link: usize) -> bool
    ensures { result ≡ turning.numeric (tree path.now link) }
{
    link != 0 && is_number(op_at(path, link - 1))
}

// Does the expression hold op 2 or 3 not inside a path of its own?
#[tactic(auto, using(meaning::proofs::Trees::tree_row, meaning::proofs::Counting::asks_none), unfolding(meaning::specs::Turning::asks))]
pub fn asks(path: &[u32], link: usize) -> bool
    ensures { result ≡ turning.asks (tree path.now link) }
{
    let Some(row) = link.checked_sub(1) else {
        return false;
    };
    let op = op_at(path, row);
    is_contextual(op)
        || (!is_over_path(op)
            && (asks(path, first_link(path, row)) || asks(path, second_link(path, row))))
}

// Does a predicate of the chain count?
#[tactic(auto, using(meaning::proofs::Trees::tree_row, meaning::proofs::Counting::counting_none), unfolding(meaning::specs::Turning::counting))]
pub fn counting(path: &[u32], link: usize) -> bool
    ensures { result ≡ turning.counting (tree path.now link) }
{
    let Some(row) = link.checked_sub(1) else {
        return false;
    };
    let held = second_link(path, row);
    counting(path, first_link(path, row)) || is_numeric(path, held) || asks(path, held)
}

// Does a step of the chain count?
#[tactic(auto, using(meaning::proofs::Trees::tree_row, meaning::proofs::Counting::counts_none), unfolding(meaning::specs::Turning::some_step))]
pub fn counts(path: &[u32], link: usize) -> bool
    ensures { result ≡ turning.counts (tree path.now link) }
{
    let Some(row) = link.checked_sub(1) else {
        return false;
    };
    counts(path, first_link(path, row)) || counting(path, second_link(path, row))
}

// Does anything in the tree that a link names need a look at each node: a count of a path, or a step that counts?
#[tactic(auto, using(meaning::proofs::Trees::tree_row, meaning::proofs::Trees::tree_zero), unfolding(crate::specs::Heavy::heavy, meaning::specs::Rows::code))]
pub fn is_heavy(path: &[u32], link: usize) -> bool
    ensures { result ≡ heavy (tree path.now link) }
{
    let Some(row) = link.checked_sub(1) else {
        return false;
    };
    let second = second_link(path, row);
    let itself = match op_at(path, row) {
        Op::Count => true,
        Op::Step => counting(path, second),
        _ => false,
    };
    itself || is_heavy(path, first_link(path, row)) || is_heavy(path, second)
}
