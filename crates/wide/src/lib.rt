//! Two-word unsigned numbers: sum, product, order, and the quotient by a number of 32 bits.
#![tactic(auto)]

ghost use Rattle.std.specs.Prelude.{◌≡◌, ◌+◌, ◌*◌, ◌/◌, ◌^◌, ◌<◌, nat_le};
ghost use Rattle.wide.specs.Value.{value, OneForm};
ghost use Rattle.wide.specs.Divided.{Divided, OneWord};

/// An unsigned number of two words: `high` × 2^64 + `low`.
#[derive(Clone, Copy, Debug, PartialEq)]
pub struct Wide {
    pub high: u64,
    pub low: u64,
}

/// An integer of a sign and a magnitude: below 0 where `negative` is true and `magnitude` isn't 0.
#[derive(Clone, Copy, Debug, PartialEq)]
pub struct Big {
    pub negative: bool,
    pub magnitude: Wide,
}

/// A digit of a quotient, `quotient`, in base 2^32 or in base 2^64, and the remainder after it,
/// `rest`.
#[derive(Clone, Copy, Debug, PartialEq)]
pub struct Digit {
    pub quotient: u64,
    pub rest: u64,
}

/// a + b. The low words are added modulo 2^64, and the carry is found from the result.
pub fn add(a: Wide, b: Wide) -> Wide
    requires { value a + value b < 2 ^ 128 }
    ensures { value result ≡ value a + value b }
{
    let low = a.low.wrapping_add(b.low);
    let carry = (low < a.low) as u64;
    Wide {
        high: a.high + b.high + carry,
        low,
    }
}

/// The whole product of two words.
pub fn product(a: u64, b: u64) -> Wide
    ensures { value result ≡ a * b }
{
    let (low, high) = a.carrying_mul(b, 0);
    Wide { high, low }
}

/// a × b.
pub fn times(a: Wide, b: u64) -> Wide
    requires { value a * b < 2 ^ 128 }
    ensures { value result ≡ value a * b }
{
    let lower = product(a.low, b);
    Wide {
        high: lower.high + a.high * b,
        low: lower.low,
    }
}

/// Whether a is at most b.
pub fn at_most(a: Wide, b: Wide) -> bool
    ensures { result ≡ nat_le (value a) (value b) }
{
    if a.high == b.high {
        a.low <= b.low
    } else {
        a.high < b.high
    }
}

// One step of a long division: the remainder so far and the next digit of 32 bits fit one word. A
// word below the divisor is the remainder again, and nothing is divided.
fn next_digit(rest: u64, digit: u64, divisor: u64) -> Digit
    requires { (rest < divisor) × (digit < 2 ^ 32) × (divisor < 2 ^ 32) }
    ensures { Divided rest digit divisor result }
{
    let dividend = rest * 0x1_0000_0000 + digit;
    if dividend < divisor {
        return Digit {
            quotient: 0,
            rest: dividend,
        };
    }
    Digit {
        quotient: dividend / divisor,
        rest: dividend % divisor,
    }
}

// The same with a word for the next digit, in two steps of 32 bits.
fn next_word(rest: u64, word: u64, divisor: u64) -> Digit
    requires { (rest < divisor) × (divisor < 2 ^ 32) }
    ensures { (result.quotient * divisor + result.rest ≡ rest * 2 ^ 64 + word)
        × (result.rest < divisor) }
{
    let upper = next_digit(rest, word / 0x1_0000_0000, divisor);
    let lower = next_digit(upper.rest, word % 0x1_0000_0000, divisor);
    Digit {
        quotient: upper.quotient * 0x1_0000_0000 + lower.quotient,
        rest: lower.rest,
    }
}

/// `dividend` / `divisor`, rounded down, by long division with digits of 32 bits and one running
/// remainder (RULES 13.5). An upper word below the divisor is that remainder already.
pub fn quotient(dividend: Wide, divisor: u64) -> Wide
    requires { (0 < divisor) × (divisor < 2 ^ 32) }
    ensures { value result ≡ value dividend / divisor }
{
    if dividend.high < divisor {
        let only = next_word(dividend.high, dividend.low, divisor);
        return Wide {
            high: 0,
            low: only.quotient,
        };
    }
    let upper = next_word(0, dividend.high, divisor);
    let lower = next_word(upper.rest, dividend.low, divisor);
    Wide {
        high: upper.quotient,
        low: lower.quotient,
    }
}

/// A theorem: in a step of the long division one word holds the remainder with the next digit.
pub fn a_step_fits_one_word()
    ensures { OneWord }
{}

/// A theorem: two-word numbers are equal only where their words are the same.
pub fn each_value_has_one_form()
    ensures { OneForm }
{}
