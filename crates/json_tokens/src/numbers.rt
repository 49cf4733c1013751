//! A number, part by part (RFC 8259, 6).
ghost use Rattle.std.specs.Prelude.{◌≡◌, ◌+◌, ◌≤◌, length};
ghost use Rattle.json_tokens.specs.Text.{most_text, end_of};
ghost use Rattle.json_tokens.specs.Numbers.{int_end, frac_end, exp_end, some, signed as signed_at, number_at, after_minus};

use crate::{byte_at, digits};

// 1*DIGIT, from `i` to `d`.
#[tactic(auto, using(conditions::proofs::Tests::tests), unfolding(crate::specs::Numbers::some))]
fn some_digits(i: usize, d: usize) -> Option<usize>
    ensures { result ≡ some i d }
{
    if d == i {
        return None;
    }
    Some(d)
}

#[tactic(auto, using(conditions::proofs::Tests::tests), unfolding(crate::specs::Numbers::int_end))]
fn int_end(text: &[u8], i: usize) -> Option<usize>
    requires { i ≤ most_text + 1 }
    ensures { result ≡ int_end text.now i }
{
    let d = digits(text, i);
    if (byte_at(text, i) == 0x30) & !(d == i + 1) {
        return None;
    }
    some_digits(i, d)
}

#[tactic(auto, using(conditions::proofs::Tests::tests), unfolding(crate::specs::Numbers::frac_end))]
fn frac_end(text: &[u8], i: usize) -> Option<usize>
    requires { i ≤ most_text + 1 }
    ensures { result ≡ frac_end text.now i }
{
    if byte_at(text, i) == 0x2e {
        return some_digits(i + 1, digits(text, i + 1));
    }
    Some(i)
}

#[tactic(auto, using(conditions::proofs::Tests::tests), unfolding(crate::specs::Numbers::signed))]
fn signed(text: &[u8], i: usize) -> usize
    requires { i ≤ most_text + 2 }
    ensures { result ≡ signed_at text.now i }
{
    let b = byte_at(text, i);
    if (b == 0x2b) | (b == 0x2d) {
        return i + 1;
    }
    i
}

#[tactic(auto, using(conditions::proofs::Tests::tests), unfolding(crate::specs::Numbers::exp_end))]
fn exp_end(text: &[u8], i: usize) -> Option<usize>
    requires { i ≤ most_text + 1 }
    ensures { result ≡ exp_end text.now i }
{
    let b = byte_at(text, i);
    if (b == 0x65) | (b == 0x45) {
        let s = signed(text, i + 1);
        return some_digits(s, digits(text, s));
    }
    Some(i)
}

/// The offset after a minus, if there is one.
pub fn after_minus(text: &[u8], i: usize) -> usize
    requires { i ≤ most_text }
    ensures { result ≡ after_minus text.now i }
{
    if byte_at(text, i) == 0x2d {
        return i + 1;
    }
    i
}

/// The offset after the number at an offset (RFC 8259, 6); none where no number stands.
pub fn number(text: &[u8], at: usize) -> Option<usize>
    requires { (length text.now ≤ most_text) × (at ≤ most_text) }
    ensures { result ≡ end_of (number_at text.now at) }
{
    let d = int_end(text, after_minus(text, at))?;
    let f = frac_end(text, d)?;
    exp_end(text, f)
}
