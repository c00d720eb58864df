// The next token, by its first byte or two.
ghost use Rattle.std.specs.Prelude.{◌≡◌, ◌<◌, ◌≤◌, length};
ghost use Rattle.text.specs.Tokens.{byte, pair_class, mark_class, number_end, quoted, punctuation, lexeme, operator_due};
ghost use Rattle.tokens.specs.Classes.{class_number};
ghost use Rattle.tokens.specs.Found.{Found};

use crate::naming::{name_end, name_token};
use crate::runs::{byte_at, is_digit, run_end, stands};
use crate::{Class, END, Next};
use names::is_letter;
use text::{Lexeme, Run};

// Where the number ends that begins at i.
#[tactic(auto, unfolding(text::specs::Tokens::number_end))]
fn number_end(text: &[u8], i: usize) -> usize
    requires { i ≤ length text.now }
    ensures { result ≡ number_end text.now i }
{
    let whole = run_end(Run::Digits, text, i);
    if stands(text, whole, b'.') {
        run_end(Run::Digits, text, whole + 1)
    } else {
        whole
    }
}

// The token of a string whose quote stands at i, up to the quote that ends it.
#[tactic(auto, unfolding(text::specs::Tokens::quoted, text::specs::Tokens::code))]
fn string_token(text: &[u8], i: usize) -> Lexeme
    requires { i < length text.now }
    ensures { result ≡ quoted text.now i (byte text.now i) }
{
    let last = run_end(Run::Until(text[i]), text, i + 1);
    if last < text.len() {
        Class::Literal.token(last + 1)
    } else {
        Class::Unknown.token(i)
    }
}

// The class of the token of two bytes that b and d are, if they are one.
#[tactic(auto, unfolding(names::specs::Names::position, names::specs::Names::same, text::specs::Tokens::code, text::specs::Tokens::class_among, text::specs::Tokens::pairs, text::specs::Tokens::pair_class))]
fn pair_kind(b: u8, d: u8) -> Class
    ensures { class_number result ≡ pair_class b d }
{
    match (b, d) {
        (b'.', b'.') => Class::Dots,
        (b':', b':') => Class::Colons,
        (b'/', b'/') => Class::Slashes,
        (b'!', b'=') => Class::Unequal,
        (b'<', b'=') => Class::LessEqual,
        (b'>', b'=') => Class::GreaterEqual,
        _ => Class::Unknown,
    }
}

// The class of the token that a byte is by itself, if it is one; `*` is an operator where one is due.
#[tactic(auto, unfolding(names::specs::Names::position, names::specs::Names::same, text::specs::Tokens::code, text::specs::Tokens::class_among, text::specs::Tokens::marks, text::specs::Tokens::mark_class))]
fn mark_kind(b: u8, due: bool) -> Class
    ensures { class_number result ≡ mark_class b due }
{
    match b {
        b'*' if due => Class::Multiply,
        b'*' => Class::NameTest,
        b'(' => Class::Opening,
        b')' => Class::Closing,
        b'[' => Class::OpeningSquare,
        b']' => Class::ClosingSquare,
        b'.' => Class::Dot,
        b'@' => Class::At,
        b',' => Class::Comma,
        b'/' => Class::Slash,
        b'|' => Class::Bar,
        b'+' => Class::Plus,
        b'-' => Class::Minus,
        b'=' => Class::Equal,
        b'<' => Class::Less,
        b'>' => Class::Greater,
        _ => Class::Unknown,
    }
}

// The token of one byte or two at i.
#[tactic(auto, unfolding(text::specs::Tokens::punctuation, text::specs::Tokens::code))]
fn mark_token(text: &[u8], i: usize, due: bool) -> Lexeme
    requires { i < length text.now }
    ensures { result ≡ punctuation text.now i due }
{
    match pair_kind(text[i], byte_at(text, i + 1)) {
        Class::Unknown => mark_kind(text[i], due).token(i + 1),
        pair => pair.token(i + 2),
    }
}

// The token that begins at i.
#[tactic(auto, unfolding(text::specs::Tokens::lexeme, text::specs::Tokens::code, text::specs::Tokens::number_at, text::specs::Tokens::quote_at, text::specs::Tokens::letter_at, text::specs::Tokens::variable_at))]
fn lexeme_at(text: &[u8], i: usize, due: bool) -> Lexeme
    requires { i < length text.now }
    ensures { result ≡ lexeme text.now i due }
{
    let first = text[i];
    let second = byte_at(text, i + 1);
    if is_digit(first) || (first == b'.' && is_digit(second)) {
        return Class::Number.token(number_end(text, i));
    }
    if first == b'"' || first == b'\'' {
        return string_token(text, i);
    }
    if is_letter(first) {
        return name_token(text, i, due);
    }
    if first == b'$' && is_letter(second) {
        let end = name_end(text, i + 1, run_end(Run::NameBytes, text, i + 1));
        return Class::Variable.token(end);
    }
    mark_token(text, i, due)
}

// The next token from a byte on, behind spaces; an operator is due there or not.
pub fn next_token(text: &[u8], at: usize, due: bool) -> Next
    requires { at ≤ length text.now }
    ensures { Found text.now at due result }
{
    let begin = run_end(Run::Spaces, text, at);
    if begin < text.len() {
        let found = lexeme_at(text, begin, due);
        return Next {
            kind: found.kind,
            begin,
            end: found.end,
        };
    }
    Next {
        kind: END,
        begin,
        end: begin,
    }
}

// Is an operator due behind a token of this class?
#[tactic(auto, unfolding(text::specs::Tokens::operator_due, text::specs::Tokens::code))]
pub fn is_due(kind: usize) -> bool
    ensures { result ≡ operator_due kind }
{
    matches!(kind, 1 | 3..=5 | 9..=16)
}
