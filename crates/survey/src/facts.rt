// What the words of a token say: its own fault, and the name before a `(`.
ghost use Rattle.std.specs.Prelude.{◌≡◌, false, ◌<◌, ◌≤◌, length};
ghost use Rattle.text.specs.Tokens.{lexeme};
ghost use Rattle.text.specs.Limited.{source};
ghost use Rattle.levels.specs.Levels.{own_of};
ghost use Rattle.survey.specs.Standing.{name_at, Reads};

use literals::digit_count;
use names::Names;
use tokens::{Class, axis_number, function_number, has_prefix, is_star};

// Classes of tokens with a fault of their own, or with a name for the `(` behind them; by their numbers, as in the machine's table.
const NAME_TEST: usize = Class::NameTest as usize;

const INSTRUCTION: usize = Class::Instruction as usize;

const FUNCTION_NAME: usize = Class::FunctionName as usize;

const AXIS_NAME: usize = Class::AxisName as usize;

const NUMBER: usize = Class::Number as usize;

const VARIABLE: usize = Class::Variable as usize;

// The faults of names: one with a prefix, one that is not in the list.
const PREFIXED: u32 = 26;

const UNKNOWN: u32 = 24;

// Those of numbers with more than 15 digits, and of what is not held: variables, and axes from the 12th on.
const LONG: u32 = 25;

const UNHELD: u32 = 26;

// The fault of a name, if it is not `*`.
fn name_fault(text: &[u8], names: &Names, begin: usize, end: usize) -> Option<u32>
    requires { Reads text.now 9 begin end }
    ensures { result ≡ own_of (source text.now names.now.list.now) 9 begin }
{
    if is_star(text, begin) {
        return None;
    }
    if has_prefix(text, begin) {
        return Some(PREFIXED);
    }
    if names.number_of(&text[begin..end]).is_none() {
        return Some(UNKNOWN);
    }
    None
}

// The number of a token's own fault, if it has one.
pub fn own_fault(text: &[u8], names: &Names, kind: usize, begin: usize, end: usize) -> Option<u32>
    requires { Reads text.now kind begin end }
    ensures { result ≡ own_of (source text.now names.now.list.now) kind begin }
{
    match kind {
        NAME_TEST => name_fault(text, names, begin, end),
        AXIS_NAME => {
            if 11 < axis_number(&text[begin..end]) {
                Some(UNHELD)
            } else {
                None
            }
        }
        NUMBER => {
            if 15 < digit_count(&text[begin..end]) {
                Some(LONG)
            } else {
                None
            }
        }
        VARIABLE => Some(UNHELD),
        _ => None,
    }
}

// What the last name before a `(` was: a processing-instruction's byte, or a function's number.
pub fn name_of(text: &[u8], kind: usize, begin: usize, end: usize, name: usize) -> usize
    requires { Reads text.now kind begin end }
    ensures { result ≡ name_at text.now kind begin name }
{
    match kind {
        INSTRUCTION => begin,
        FUNCTION_NAME => function_number(&text[begin..end]),
        _ => name,
    }
}
