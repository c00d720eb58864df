// The remainder of two doubles, exact, with the sign of the first: what `%` means. `%` itself is a call of the C library's fmod, which a
// program built here takes from a newer library than many a system has; so it is worked out here, in whole numbers.
#![tactic(auto)]

ghost use Rattle.std.specs.Prelude.{◌≡◌, Bool, ◌+◌, ◌-◌, ◌*◌, ◌/◌, ◌^◌, ◌%◌, ◌<◌, ◌≤◌, false};
ghost use Rattle.std.specs.Float.{binary64};
ghost use Rattle.std.specs.Float.Ieee as Ieee;
ghost use Rattle.std.specs.Float.Ieee.Exact.{HasValue};
ghost use Rattle.remainder.specs.Units.{size_of};

// The bits of infinity. Those below it are the finite doubles that are not negative.
const INFINITY: u64 = 0x7ff0_0000_0000_0000;

// The bit of the sign.
const SIGN: u64 = 0x8000_0000_0000_0000;

// The leading digit of a double that is not among the smallest, which its bits leave out.
const LEADING: u64 = 0x10_0000_0000_0000;

// So many places above, a divisor is larger than any digits.
const FAR: u64 = 53;

// A size as a number of units, the smallest doubles: digits times 2 to the shift. Each finite double has one.
#[derive(Clone, Copy)]
struct Size {
    digits: u64,
    shift: u64,
    ghost of_doubles: { (digits < 2 ^ 53) × (shift ≤ 2045) },
}

impl Size {
    // The size of the finite double that has these bits, without its sign.
    #[tactic(auto, using(crate::proofs::Units::size_low, crate::proofs::Units::size_high))]
    fn from_bits(bits: u64) -> Self
        requires { bits < 2047 * 2 ^ 52 }
        ensures value { (s : Bool) → HasValue (Ieee.of_fields binary64 s (bits / 2 ^ 52) (bits % 2 ^ 52)) s (size_of result.digits result.shift) (2 ^ 1074) }
        ensures above { 0 < bits → 0 < result.digits }
    {
        let exponent = bits / LEADING;
        if exponent == 0 {
            return Size {
                digits: bits,
                shift: 0,
            };
        }
        Size {
            digits: bits % LEADING + LEADING,
            shift: exponent - 1,
        }
    }

    // The rest by a larger or smaller size that is not 0.
    #[tactic(auto, using(crate::proofs::Units::scaled_less, crate::proofs::Units::scaled_more, crate::proofs::Units::left_out, crate::proofs::Units::above_quotient, crate::proofs::Units::below_quotient))]
    fn rest_by(self, divisor: Size) -> Size
        requires { 0 < divisor.digits }
        ensures { size_of result.digits result.shift ≡ size_of self.digits self.shift % size_of divisor.digits divisor.shift }
    {
        if divisor.shift <= self.shift {
            let shift = self.shift - divisor.shift;
            return Size {
                digits: rest_of_digits(self.digits, shift, divisor.digits),
                shift: divisor.shift,
            };
        }
        let more = divisor.shift - self.shift;
        if FAR <= more {
            return self;
        }
        if self.digits >> more < divisor.digits {
            return self;
        }
        Size {
            digits: self.digits % (divisor.digits << more),
            shift: self.shift,
        }
    }
}

// Twice a rest, less the divisor where that is left.
fn doubled(rest: u64, divisor: u64) -> u64
    requires { (rest < divisor) × (divisor < 2 ^ 53) }
    ensures { result ≡ 2 * rest % divisor }
{
    let twice = 2 * rest;
    if twice < divisor {
        twice
    } else {
        twice - divisor
    }
}

// The rest of shifted digits by a divisor, one binary digit after the other.
#[tactic(auto, using(crate::proofs::Units::digit_more))]
fn rest_of_digits(digits: u64, shift: u64, divisor: u64) -> u64
    requires { (0 < divisor) × (divisor < 2 ^ 53) }
    ensures { result ≡ size_of digits shift % divisor }
{
    let mut rest = digits % divisor;
    for _i in 0..shift {
        rest = doubled(rest, divisor);
    }
    rest
}

// The double that is 2 to the shift units.
fn power(shift: u64) -> f64
    requires { shift ≤ 2045 }
    ensures { HasValue result false (2 ^ shift) (2 ^ 1074) }
{
    if shift < 52 {
        f64::from_bits(1 << shift)
    } else {
        f64::from_bits((shift - 51) << 52)
    }
}

// The double nearest to a size.
impl From<Size> for f64 {
    ghost from_gives = { λ s r. r ≡ Ieee.round binary64 false (size_of s.digits s.shift) (2 ^ 1074) };

    #[tactic(auto, using(crate::proofs::Units::nothing_is, crate::proofs::Units::product_is))]
    fn from(size: Size) -> f64 {
        if size.digits == 0 {
            return 0.0;
        }
        size.digits as f64 * power(size.shift)
    }
}

// The remainder of x by y: x less as many times y as there are whole ones in x. NaN for an infinite x, for a y of 0 and for a NaN.
pub fn remainder(x: f64, y: f64) -> f64
    ensures { result ≡ Ieee.rem binary64 x y }
{
    if x != x {
        return x;
    }
    if y != y {
        return y;
    }
    let a = x.to_bits() % SIGN;
    let b = y.to_bits() % SIGN;
    if INFINITY <= a {
        return 0.0 / 0.0;
    }
    if INFINITY <= b {
        return x;
    }
    if b == 0 {
        return 0.0 / 0.0;
    }
    let rest = f64::from(Size::from_bits(a).rest_by(Size::from_bits(b)));
    if x.is_sign_negative() { -rest } else { rest }
}
