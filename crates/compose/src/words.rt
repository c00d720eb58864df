// The number that a token has by its words, and the value of a number.
ghost use Rattle.std.specs.Prelude.{◌≡◌, true, false, cond, ℕ, ◌+◌, ◌≤◌, length};
ghost use Rattle.names.specs.Names.{is_named, number_of, names_of};
ghost use Rattle.text.specs.Tokens.{between};
ghost use Rattle.text.specs.Limited.{source, place, is_star, value_at};
ghost use Rattle.compose.specs.Standing.{word_number};
ghost use Rattle.compose.specs.Words.{Spelled};

use crate::kinds::{AT, AXIS_NAME, FUNCTION_NAME, INSTRUCTION, NAME_TEST, NODE_TYPE, NUMBER};
use crate::ops::ATTRIBUTE;
use names::Names;
use tokens::{axis_number, function_number, is_star, type_number};

// A name's test: `*` is 1, the i-th name 16 + i.
fn name_number(text: &[u8], names: &Names, begin: usize, end: usize) -> u32
    requires { (begin ≤ end) × (end ≤ length text.now)
        × (is_star text.now begin ≡ false → is_named (names_of names.now.list.now) (between text.now begin end) ≡ true) }
    ensures { result ≡ cond (is_star text.now begin) 1 (16 + number_of (names_of names.now.list.now) (between text.now begin end)) }
{
    if is_star(text, begin) {
        return 1;
    }
    let number = names.number_of(&text[begin..end]).unwrap_or(0);
    (16 + number) as u32
}

// The number of a token by its class.
pub fn word_number(text: &[u8], names: &Names, kind: usize, begin: usize, end: usize) -> u32
    requires { Spelled text.now names.now.list.now kind begin end }
    ensures { (i : ℕ) → place (source text.now names.now.list.now) i ≡ begin
        → result ≡ word_number (source text.now names.now.list.now) i kind }
{
    match kind {
        AT => ATTRIBUTE,
        NAME_TEST => name_number(text, names, begin, end),
        NODE_TYPE => type_number(&text[begin..end]) as u32,
        INSTRUCTION => 4,
        FUNCTION_NAME => function_number(&text[begin..end]) as u32,
        AXIS_NAME => axis_number(&text[begin..end]) as u32,
        _ => 0,
    }
}

// The value of a number; 0 for any other token.
pub fn number_value(text: &[u8], names: &Names, kind: usize, begin: usize, end: usize) -> f64
    requires { Spelled text.now names.now.list.now kind begin end }
    ensures { kind ≡ 15 → result ≡ value_at text.now begin }
{
    if kind == NUMBER {
        return literals::value(text, begin, end);
    }
    0.0
}
