// Bytes, and runs of bytes of one kind.
ghost use Rattle.std.specs.Prelude.{◌≡◌, ◌≤◌, length, eqb};
ghost use Rattle.decimal.specs.Decimal.{is_digit};
ghost use Rattle.text.specs.Tokens.{passes, byte, run_end};

use names::is_letter;
use text::Run;

// Is it `0` to `9`?
pub fn is_digit(b: u8) -> bool
    ensures { result ≡ is_digit b }
{
    matches!(b, b'0'..=b'9')
}

// The byte at i, or 0 past the end.
pub fn byte_at(text: &[u8], i: usize) -> u8
    ensures { result ≡ byte text.now i }
{
    text.get(i).copied().unwrap_or(0)
}

// Does this byte stand at i?
pub fn stands(text: &[u8], i: usize, b: u8) -> bool
    ensures { result ≡ eqb (byte text.now i) b }
{
    byte_at(text, i) == b
}

// Does a run go on with this byte?
fn does_pass(run: Run, b: u8) -> bool
    ensures { result ≡ passes run b }
{
    match run {
        Run::Spaces => matches!(b, b' ' | b'\t' | b'\n' | b'\r'),
        Run::Digits => is_digit(b),
        Run::NameBytes => is_letter(b) || is_digit(b) || b == b'-' || b == b'.',
        Run::Until(last) => b != last,
    }
}

// The end of the run that begins at i.
pub fn run_end(run: Run, text: &[u8], i: usize) -> usize
    requires { i ≤ length text.now }
    ensures { (result ≡ run_end run text.now i) × (i ≤ result) × (result ≤ length text.now) }
{
    for at in i..text.len() {
        if !does_pass(run, text[at]) {
            return at;
        }
    }
    text.len()
}
