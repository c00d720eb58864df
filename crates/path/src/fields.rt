// What a row's fields may hold (document 01, "The path form"): the table of ops, the sorts, and the test of each field.
ghost use Rattle.std.specs.Prelude.{◌≡◌};
ghost use Rattle.meaning.specs.Rows.{fields_of, is_number, is_truth, is_path, is_step, is_predicate, is_unknown, is_link, takes, may_miss, good_test, good_link, good_field, good_fields};

use super::{field_at, op_at};
use meaning::Field::*;
use meaning::{Field, Fields, LAST_AXIS, Op};

// What the fields a and b of each op hold, in the order of the ops' numbers. A table: read by a match, it would be jumped through.
static FIRST_TWO: [(Field, Field); 26] = [
    (Unused, Unused), // Unknown
    (LiteralIndex, Unused), // Literal
    (Unused, Unused), // Position
    (Unused, Unused), // Last
    (NumberLink, NumberLink), // Add
    (NumberLink, NumberLink), // Subtract
    (NumberLink, NumberLink), // Multiply
    (NumberLink, NumberLink), // Divide
    (NumberLink, NumberLink), // Remainder
    (NumberLink, Unused), // Negate
    (NumberLink, NumberLink), // Equal
    (NumberLink, NumberLink), // Unequal
    (NumberLink, NumberLink), // Less
    (NumberLink, NumberLink), // LessEqual
    (NumberLink, NumberLink), // Greater
    (NumberLink, NumberLink), // GreaterEqual
    (TruthLink, TruthLink), // And
    (TruthLink, TruthLink), // Or
    (TruthLink, Unused), // Negation
    (NumberLink, Unused), // TruthOf
    (PathLink, Unused), // Exists
    (PathLink, Unused), // Count
    (StepLink, Unused), // Relative
    (StepOrNone, Unused), // Absolute
    (StepOrNone, PredicateOrNone), // Step
    (PredicateOrNone, ExpressionLink), // Predicate
];

// The table of ops: what an op's fields hold.
#[tactic(auto, unfolding(meaning::specs::Rows::fields_of))]
fn fields_of(op: Op) -> Fields
    ensures { result ≡ fields_of op }
{
    let (a, b) = FIRST_TWO[op as usize];
    let (c, d) = match op {
        Op::Step => (AxisNumber, TestNumber),
        _ => (Unused, Unused),
    };
    Fields { a, b, c, d }
}

// Is a row with this op a number?
#[tactic(auto, unfolding(meaning::specs::Rows::is_number, meaning::specs::Rows::code))]
pub fn is_number(op: Op) -> bool
    ensures { result ≡ is_number op }
{
    matches!(
        op,
        Op::Literal
            | Op::Position
            | Op::Last
            | Op::Add
            | Op::Subtract
            | Op::Multiply
            | Op::Divide
            | Op::Remainder
            | Op::Negate
            | Op::Count
    )
}

// Is it a truth?
#[tactic(auto, unfolding(meaning::specs::Rows::is_truth, meaning::specs::Rows::code))]
pub fn is_truth(op: Op) -> bool
    ensures { result ≡ is_truth op }
{
    matches!(
        op,
        Op::Equal
            | Op::Unequal
            | Op::Less
            | Op::LessEqual
            | Op::Greater
            | Op::GreaterEqual
            | Op::And
            | Op::Or
            | Op::Negation
            | Op::TruthOf
            | Op::Exists
    )
}

// Is it a path?
#[tactic(auto, unfolding(meaning::specs::Rows::is_path, meaning::specs::Rows::code))]
pub fn is_path(op: Op) -> bool
    ensures { result ≡ is_path op }
{
    matches!(op, Op::Relative | Op::Absolute)
}

// Is it a step?
#[tactic(auto, unfolding(meaning::specs::Rows::is_step, meaning::specs::Rows::code))]
pub fn is_step(op: Op) -> bool
    ensures { result ≡ is_step op }
{
    matches!(op, Op::Step)
}

// Is it a predicate?
#[tactic(auto, unfolding(meaning::specs::Rows::is_predicate, meaning::specs::Rows::code))]
pub fn is_predicate(op: Op) -> bool
    ensures { result ≡ is_predicate op }
{
    matches!(op, Op::Predicate)
}

// Is it no op at all?
#[tactic(auto, unfolding(meaning::specs::Rows::is_unknown, meaning::specs::Rows::code))]
pub fn is_unknown(op: Op) -> bool
    ensures { result ≡ is_unknown op }
{
    matches!(op, Op::Unknown)
}

// May a field of this kind hold a link to a row of this op?
#[tactic(auto, unfolding(meaning::specs::Rows::takes))]
fn takes_op(kind: Field, op: Op) -> bool
    ensures { result ≡ takes kind op }
{
    match kind {
        Unused | LiteralIndex | AxisNumber | TestNumber => false,
        NumberLink => is_number(op),
        TruthLink => is_truth(op),
        ExpressionLink => is_number(op) || is_truth(op),
        PathLink => is_path(op),
        StepLink | StepOrNone => is_step(op),
        PredicateOrNone => is_predicate(op),
    }
}

// May a field of this kind be 0, for no link?
#[tactic(auto, unfolding(meaning::specs::Rows::may_miss))]
fn may_miss(kind: Field) -> bool
    ensures { result ≡ may_miss kind }
{
    matches!(kind, StepOrNone | PredicateOrNone)
}

// A link in a row lies in 1..row and is of its kind's sort; 0 is for kinds that may have none.
#[tactic(auto, unfolding(meaning::specs::Rows::good_link))]
fn is_good_link(path: &[u32], row: usize, kind: Field, l: usize) -> bool
    ensures { result ≡ good_link path.now row kind l }
{
    if l == 0 {
        may_miss(kind)
    } else {
        l <= row && takes_op(kind, op_at(path, l - 1))
    }
}

// Is a number a test's?
#[tactic(auto, unfolding(meaning::specs::Rows::good_test))]
fn is_good_test(v: usize) -> bool
    ensures { result ≡ good_test v }
{
    v <= 4 || (17 <= v && v <= 65551)
}

// Is it a link to another row?
#[tactic(auto, unfolding(meaning::specs::Rows::is_link))]
fn is_link(kind: Field) -> bool
    ensures { result ≡ is_link kind }
{
    !matches!(kind, Unused | LiteralIndex | AxisNumber | TestNumber)
}

// Is v allowed in a field of this kind? Links first: one compare tells them, and the match jumps through a table.
#[tactic(auto, unfolding(meaning::specs::Rows::good_field, meaning::specs::Rows::is_link))]
fn is_good_field(path: &[u32], literals: usize, row: usize, kind: Field, v: usize) -> bool
    ensures { result ≡ good_field path.now literals row kind v }
{
    if is_link(kind) {
        return is_good_link(path, row, kind, v);
    }
    match kind {
        LiteralIndex => v < literals,
        AxisNumber => v <= LAST_AXIS,
        TestNumber => is_good_test(v),
        _ => v == 0,
    }
}

// Are all four fields of a row as its op wants them?
#[tactic(auto, unfolding(meaning::specs::Rows::good_fields))]
pub fn has_good_fields(path: &[u32], literals: usize, row: usize) -> bool
    ensures { result ≡ good_fields path.now literals row }
{
    let fields = fields_of(op_at(path, row));
    is_good_field(path, literals, row, fields.a, field_at(path, row, 1))
        && is_good_field(path, literals, row, fields.b, field_at(path, row, 2))
        && is_good_field(path, literals, row, fields.c, field_at(path, row, 3))
        && is_good_field(path, literals, row, fields.d, field_at(path, row, 4))
}
