//! Members of an object of a text that is JSON: where each stands, and what it is read as.
#![tactic(auto)]

mod object;

ghost use Rattle.std.specs.Prelude.{◌≡◌, ◌≤◌, length, option_and_then};
ghost use Rattle.json_tokens.specs.Text.{most_text};
ghost use Rattle.json_tokens.specs.Numbers.{decimal as decimal_of, number_at};
ghost use Rattle.json_fields.specs.Whole.{fitting, span, whole_in, u64_of, i64_of, u64_at as u64_in, i64_at as i64_in};
ghost use Rattle.json_fields.specs.Fields.{pair_at};

use json_tokens::byte_at;
use json_walks::Items;
pub use object::places;

// The number that the digits from one offset to another stand for, unless it is too large.
fn decimal(text: &[u8], from: usize, to: usize) -> Option<u64>
    requires { (from ≤ to) × (to ≤ length text.now) }
    ensures { result ≡ fitting (decimal_of 0 (span text.now from to)) }
{
    let mut n: u64 = 0;
    let mut k = from;
    while k < to {
        let d = (text[k] as u64) % 16;
        if (u64::MAX - d) / 10 < n {
            return None;
        }
        n = n * 10 + d;
        k += 1;
    }
    Some(n)
}

/// A whole number: whether it has a minus, and what its digits stand for.
#[derive(Clone, Copy)]
pub struct Whole {
    /// Whether it has a minus.
    pub negative: bool,
    /// What its digits stand for.
    pub size: u64,
}

// The number at an offset, where it is whole.
#[tactic(auto, using(crate::proofs::Figures::wholes))]
fn whole_at(text: &[u8], at: usize) -> Option<Whole>
    requires { length text.now ≤ most_text }
    ensures { result ≡ whole_in (number_at text.now at) }
{
    if text.len() < at {
        return None;
    }
    let e = json_tokens::number(text, at)?;
    let from = json_tokens::after_minus(text, at);
    let d = json_tokens::digits(text, from);
    if e != d {
        return None;
    }
    let size = decimal(text, from, d)?;
    Some(Whole {
        negative: byte_at(text, at) == 0x2d,
        size,
    })
}

#[tactic(auto, unfolding(crate::specs::Whole::u64_of))]
fn as_u64(whole: Whole) -> Option<u64>
    ensures { result ≡ u64_of whole }
{
    if whole.negative {
        return None;
    }
    Some(whole.size)
}

#[tactic(auto, unfolding(crate::specs::Whole::i64_of))]
fn as_i64(whole: Whole) -> Option<i64>
    ensures { result ≡ i64_of whole }
{
    if whole.negative & (whole.size == 0) {
        return None;
    }
    signed::with_sign(whole.negative, whole.size)
}

/// The number at an offset, where it is whole and fits: serde_json's `as_u64`.
pub fn u64_at(text: &[u8], at: usize) -> Option<u64>
    requires { length text.now ≤ most_text }
    ensures { result ≡ u64_in text.now at }
{
    as_u64(whole_at(text, at)?)
}

/// The same, signed: its `as_i64`, which takes `-0` for no whole number.
pub fn i64_at(text: &[u8], at: usize) -> Option<i64>
    requires { length text.now ≤ most_text }
    ensures { result ≡ i64_in text.now at }
{
    as_i64(whole_at(text, at)?)
}

/// The two whole numbers that are all that stands in the list at an offset.
#[tactic(auto, using(json_tokens::proofs::Texts::stands), unfolding(crate::specs::Fields::pair_at, crate::specs::Fields::pair_of))]
pub fn pair_at(text: &[u8], at: usize, left: usize) -> Option<(u64, u64)>
    requires { length text.now ≤ most_text }
    ensures { result ≡ pair_at left text.now at }
{
    if byte_at(text, at) != 0x5b {
        return None;
    }
    let mut items = Items::of(text, at + 1, left);
    let a = items.next()?;
    let b = items.next()?;
    if items.next().is_some() {
        return None;
    }
    Some((u64_at(text, a)?, u64_at(text, b)?))
}
