// A number and its digits, both ways (document 02, W-201): decimals without leading zeros, up to 4,294,967,295, in lent bytes.
#![tactic(auto)]

ghost use Rattle.std.specs.Prelude.{◌≡◌, ◌+◌, ◌<◌, ◌≤◌, length};
ghost use Rattle.decimal.specs.Decimal.{plain, digits, decimal_at, laid};

// Are digits a decimal: some, and no leading zero but a `0` alone?
#[tactic(auto, unfolding(crate::specs::Decimal::plain))]
fn is_plain(digits: &[u8]) -> bool
    ensures { result ≡ plain digits.now }
{
    match digits {
        [] => false,
        [_] => true,
        [first, ..] => *first != b'0',
    }
}

// One above the largest number that is read.
const TOO_LARGE: u64 = 4294967296;

// The decimal at an index of a text, its number and the index behind its digits, or none.
pub fn read(text: &[u8], at: usize) -> Option<(u32, usize)>
    ensures { result ≡ decimal_at text.now at }
{
    let rest = text.get(at..)?;
    let mut value: u64 = 0;
    let mut count = 0;
    for byte in rest {
        if !byte.is_ascii_digit() {
            break;
        }
        value = 10 * value + (*byte - b'0') as u64;
        if TOO_LARGE <= value {
            return None;
        }
        count += 1;
    }
    if is_plain(&rest[..count]) {
        Some((value as u32, at + count))
    } else {
        None
    }
}

// How many digits a number has. Kept as a loop: by the library's logarithm files are written at half the speed.
pub fn width(n: u32) -> usize
    ensures { (result ≡ length (digits n)) × (0 < result) × (result ≤ 10) }
{
    let mut count = 1;
    let mut rest = n;
    while 10 <= rest {
        rest /= 10;
        count += 1;
    }
    count
}

// Writes the digits of a number from an index on, the last one first, and gives the index behind them. Kept as a loop that ends with the
// number: over a range from the back files are written a fifth slower.
pub fn write(n: u32, out: &mut [u8], at: usize) -> usize
    requires { at + length (digits n) ≤ length out.old }
    ensures { (result ≡ at + length (digits n)) × (out.new ≡ laid out.old at (digits n)) }
{
    let end = at + width(n);
    let mut last = end - 1;
    let mut rest = n;
    while 10 <= rest {
        out[last] = b'0' + (rest % 10) as u8;
        rest /= 10;
        last -= 1;
    }
    out[last] = b'0' + rest as u8;
    end
}
