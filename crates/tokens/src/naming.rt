// Names: where one ends, what follows it, and the class that it has there.
ghost use Rattle.std.specs.Prelude.{◌≡◌, ◌+◌, ◌≤◌, ◌&&◌, length, eqb};
ghost use Rattle.names.specs.Names.{is_letter};
ghost use Rattle.text.specs.Tokens.{byte, run_end, name_end, name_class, named};
ghost use Rattle.text.specs.Limited.{is_star, has_prefix};
ghost use Rattle.text.specs.declared.Run.TheVariants.{Spaces, NameBytes};
ghost use Rattle.tokens.specs.Classes.{class_number};

use crate::Class;
use crate::runs::{byte_at, run_end, stands};
use crate::words::{axis_kind, operator_kind, type_kind};
use names::is_letter;
use text::{Lexeme, Run};

// Does a name begin at i?
fn begins_name(text: &[u8], i: usize) -> bool
    ensures { result ≡ is_letter (byte text.now i) }
{
    is_letter(byte_at(text, i))
}

// Where the name ends that begins at i, and whose name bytes end at `first`: behind `:` and another name where that follows.
#[tactic(auto, using(text::proofs::Lexemes::run_within), unfolding(text::specs::Tokens::name_end))]
pub fn name_end(text: &[u8], i: usize, first: usize) -> usize
    requires { (i ≤ length text.now) × (first ≡ run_end NameBytes text.now i) }
    ensures { (result ≡ name_end text.now i) × (first ≤ result) × (result ≤ length text.now) }
{
    if stands(text, first, b':') && begins_name(text, first + 1) {
        return run_end(Run::NameBytes, text, first + 1);
    }
    first
}

// Do `:` and this byte stand at i?
fn colon_and(text: &[u8], i: usize, b: u8) -> bool
    requires { i ≤ length text.now }
    ensures { result ≡ (eqb (byte text.now i) 58 && eqb (byte text.now (i + 1)) b) }
{
    stands(text, i, b':') && stands(text, i + 1, b)
}

// The class of the name from i to e, whose name bytes end at `first`, by what follows behind spaces.
#[tactic(auto, unfolding(text::specs::Tokens::name_class, text::specs::Tokens::opens_at, text::specs::Tokens::axis_at, text::specs::Tokens::code))]
fn name_kind(text: &[u8], i: usize, first: usize, e: usize, due: bool) -> Class
    requires { (i ≤ e) × (e ≤ length text.now) × (first ≡ run_end NameBytes text.now i) }
    ensures { class_number result ≡ name_class text.now i e (run_end Spaces text.now e) due }
{
    if due {
        return operator_kind(&text[i..e]);
    }
    let next = run_end(Run::Spaces, text, e);
    if stands(text, next, b'(') {
        return type_kind(&text[i..e]);
    }
    if colon_and(text, next, b':') && e == first {
        return axis_kind(&text[i..e]);
    }
    Class::NameTest
}

// The token of a name that begins at i, or of `p:*`.
#[tactic(auto, unfolding(text::specs::Tokens::named, text::specs::Tokens::star_at, text::specs::Tokens::code))]
pub fn name_token(text: &[u8], i: usize, due: bool) -> Lexeme
    requires { i ≤ length text.now }
    ensures { result ≡ named text.now i due }
{
    let first = run_end(Run::NameBytes, text, i);
    if colon_and(text, first, b'*') {
        let class = if due { Class::Unknown } else { Class::NameTest };
        return class.token(first + 2);
    }
    let end = name_end(text, i, first);
    name_kind(text, i, first, end, due).token(end)
}

// Is what begins at p a `*`?
#[tactic(auto, unfolding(text::specs::Limited::is_star))]
pub fn is_star(text: &[u8], p: usize) -> bool
    ensures { result ≡ is_star text.now p }
{
    stands(text, p, b'*')
}

// Has the name that begins at p a prefix?
#[tactic(auto, unfolding(text::specs::Limited::has_prefix, text::specs::Tokens::star_at))]
pub fn has_prefix(text: &[u8], p: usize) -> bool
    requires { p ≤ length text.now }
    ensures { result ≡ has_prefix text.now p }
{
    let first = run_end(Run::NameBytes, text, p);
    colon_and(text, first, b'*') || name_end(text, p, first) != first
}
