// Number literals of a path text (document 02, W-202): how many digits one has, its value, and where a value stands among the literals.
#![tactic(auto)]

ghost use Rattle.std.specs.Prelude.{◌≡◌, cond, ◌+◌, ◌-◌, ◌*◌, ◌^◌, ◌<◌, ◌≤◌, length, take};
ghost use Rattle.decimal.specs.Decimal.{is_digit};
ghost use Rattle.decimal.specs.Decimal as Decimal;
ghost use Rattle.text.specs.Tokens.{number_end};
ghost use Rattle.text.specs.Limited.{number_at, digits, digits_behind, most_digits, value_at};
ghost use Rattle.text.specs.Reading.{index_of};

use text::Run;
use tokens::{is_digit, run_end};

// How many digits a word has.
#[tactic(auto, using(crate::proofs::Digits::count_digit, crate::proofs::Digits::count_other, crate::proofs::Digits::count_none))]
pub fn digit_count(word: &[u8]) -> usize
    ensures { result ≡ length (digits word.now) }
{
    let mut count = 0;
    for b in word {
        if is_digit(*b) {
            count += 1;
        }
    }
    count
}

// A number with one byte more behind it: only digits count.
fn grown(n: u64, b: u8) -> u64
    requires { n < 10 ^ most_digits }
    ensures { result ≡ cond (is_digit b) (10 * n + (b - 48)) n }
{
    if is_digit(b) {
        10 * n + (b - b'0') as u64
    } else {
        n
    }
}

// The whole number of the digits of a word.
#[tactic(auto, using(crate::proofs::Digits::number_first, crate::proofs::Digits::number_none, crate::proofs::Digits::number_within, decimal::proofs::Decimals::number_grows))]
fn whole(word: &[u8]) -> u64
    requires { length (digits word.now) ≤ most_digits }
    ensures { (result ≡ Decimal.number (digits word.now)) × (result < 10 ^ most_digits) }
{
    let mut n: u64 = 0;
    for b in word {
        n = grown(n, *b);
    }
    n
}

// How many bytes of a literal stand behind its point: digits all of them.
#[tactic(auto, unfolding(text::specs::Tokens::run_end, text::specs::Limited::digits_behind))]
fn behind_point(word: &[u8]) -> usize
    ensures { result ≡ digits_behind word.now }
{
    let point = run_end(Run::Digits, word, 0);
    word.len().saturating_sub(point + 1)
}

// At most 15 digits stand behind a point.
#[tactic(auto, using(crate::proofs::Digits::power_within))]
fn power_of_ten(n: usize) -> u64
    requires { n ≤ most_digits }
    ensures { (result ≡ 10 ^ n) × (result ≤ 10 ^ most_digits) }
{
    10u64.pow(n as u32)
}

// The value of the number literal text[from..to]: the whole number of its digits, divided once by the power of ten. Both are doubles exactly,
// so that the division is the one rounding. The whole text is lent, as where a number ends is said of it.
#[tactic(auto, using(crate::proofs::Digits::behind_few), unfolding(text::specs::Limited::number_at))]
pub fn value(text: &[u8], from: usize, to: usize) -> f64
    requires { (from ≤ to) × (to ≤ length text.now) × (to ≡ number_end text.now from)
        × (length (digits (number_at text.now from)) ≤ most_digits) }
    ensures { result ≡ value_at text.now from }
{
    let literal = &text[from..to];
    let digits = whole(literal);
    let scale = power_of_ten(behind_point(literal));
    (digits as f64) / (scale as f64)
}

// Where a value stands first among the first n literals, or n.
pub fn index_of(values: &[f64], n: usize, x: f64) -> usize
    requires { n ≤ length values.now }
    ensures { result ≡ index_of (take n values.now) x }
{
    let seen = &values[..n];
    seen.iter().position(|v| *v == x).unwrap_or(seen.len())
}
