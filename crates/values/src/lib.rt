// Values of expressions: what an op makes of its operands, each operation once, in f64.
#![tactic(auto)]

ghost use Rattle.std.specs.Prelude.{◌≡◌, false, ◌≤◌, get_or};
ghost use Rattle.std.specs.Float.{nan};
ghost use Rattle.std.specs.Float.Ieee.Exact.{HasValue};
ghost use Rattle.meaning.specs.Table.{most_rows};
ghost use Rattle.meaning.specs.Meaning.{float, number_of, truth_of, applied};
ghost use Rattle.meaning.specs.Meaning as Meaning;
ghost use Rattle.meaning.proofs.Applied.{takes_first, takes_second, decides};

use meaning::{Context, Op, Value};
use remainder::remainder;

// A whole number as a double, exactly: no sign, and n over 1.
pub fn float_of(n: usize) -> f64
    requires { n ≤ most_rows }
    ensures { (result ≡ float n) × HasValue result false n 1 }
{
    (n as u32) as f64
}

// The number of a value, NaN of a truth.
fn number_of(v: Value) -> f64
    ensures { result ≡ number_of v }
{
    match v {
        Value::Truth(_) => f64::NAN,
        Value::Number(x) => x,
    }
}

// The truth of a value; a number has none, and false stands for it.
pub fn truth_of(v: Value) -> bool
    ensures { result ≡ truth_of v }
{
    match v {
        Value::Truth(b) => b,
        Value::Number(_) => false,
    }
}

// Does a predicate of this value keep the node at this position?
pub fn keeps(v: Value, position: f64) -> bool
    ensures { result ≡ Meaning.holds v position }
{
    match v {
        Value::Truth(b) => b,
        Value::Number(x) => x == position,
    }
}

// Neither zero nor NaN.
fn nonzero(x: f64) -> bool
    ensures { result ≡ Meaning.nonzero x }
{
    !(x.is_nan() || x == 0.0)
}

// The literal at an index, or NaN past the end.
fn literal_at(literals: &[f64], i: usize) -> f64
    ensures { result ≡ get_or literals.now i nan }
{
    literals.get(i).copied().unwrap_or(f64::NAN)
}

// Does the op take a first operand?
#[tactic(auto, unfolding(meaning::proofs::Applied::takes_first, meaning::specs::Rows::code))]
pub fn takes_first(op: Op) -> bool
    ensures { result ≡ takes_first op }
{
    !matches!(
        op,
        Op::Unknown
            | Op::Literal
            | Op::Position
            | Op::Last
            | Op::Exists
            | Op::Count
            | Op::Relative
            | Op::Absolute
            | Op::Step
            | Op::Predicate
    )
}

// Does it take a second?
#[tactic(auto, unfolding(meaning::proofs::Applied::takes_first, meaning::proofs::Applied::takes_second, meaning::specs::Rows::code))]
pub fn takes_second(op: Op) -> bool
    ensures { result ≡ takes_second op }
{
    matches!(
        op,
        Op::Add
            | Op::Subtract
            | Op::Multiply
            | Op::Divide
            | Op::Remainder
            | Op::Equal
            | Op::Unequal
            | Op::Less
            | Op::LessEqual
            | Op::Greater
            | Op::GreaterEqual
            | Op::And
            | Op::Or
    )
}

// Does the first operand of an and or an or decide it?
#[tactic(auto, unfolding(meaning::proofs::Applied::decides, meaning::specs::Rows::code))]
pub fn is_decided(op: Op, u: Value) -> bool
    ensures { result ≡ decides op u }
{
    match op {
        Op::And => !truth_of(u),
        Op::Or => truth_of(u),
        _ => false,
    }
}

// The table of ops: u and v are the operands, n is how many nodes the op's path selects. Each caller has other ones of these, so a struct
// of them would be built at each call only to be taken apart here.
#[tactic(auto, unfolding(meaning::specs::Meaning::applied))]
pub fn apply(
    literals: &[f64],
    op: Op,
    index: usize,
    u: Value,
    v: Value,
    n: usize,
    context: Context,
) -> Value
    requires { n ≤ most_rows }
    ensures { result ≡ applied literals.now op index u v n context }
{
    let (x, y) = (number_of(u), number_of(v));
    match op {
        Op::Literal => Value::Number(literal_at(literals, index)),
        Op::Position => Value::Number(context.position),
        Op::Last => Value::Number(context.size),
        Op::Add => Value::Number(x + y),
        Op::Subtract => Value::Number(x - y),
        Op::Multiply => Value::Number(x * y),
        Op::Divide => Value::Number(x / y),
        Op::Remainder => Value::Number(remainder(x, y)),
        Op::Negate => Value::Number(-x),
        Op::Equal => Value::Truth(x == y),
        Op::Unequal => Value::Truth(x != y),
        Op::Less => Value::Truth(x < y),
        Op::LessEqual => Value::Truth(x <= y),
        Op::Greater => Value::Truth(x > y),
        Op::GreaterEqual => Value::Truth(x >= y),
        Op::And => Value::Truth(truth_of(u) && truth_of(v)),
        Op::Or => Value::Truth(truth_of(u) || truth_of(v)),
        Op::Negation => Value::Truth(!truth_of(u)),
        Op::TruthOf => Value::Truth(nonzero(x)),
        Op::Exists => Value::Truth(0 < n),
        Op::Count => Value::Number(float_of(n)),
        Op::Unknown | Op::Relative | Op::Absolute | Op::Step | Op::Predicate => {
            Value::Truth(false)
        }
    }
}
