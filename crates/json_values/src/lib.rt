//! Values of RFC 8259 over a lent text, by the offsets where they start and where they end.
#![tactic(auto)]

ghost use Rattle.std.specs.Prelude.{◌≡◌, ◌+◌, ◌<◌, ◌≤◌, length};
ghost use Rattle.json_tokens.specs.Text.{most_text, end_of};
ghost use Rattle.json_values.specs.Grammar.{three_at, true_at, false_at, null_at, plain_by, plain_at, named_at, opened_at, after_at, value_at, values_at, members_at};

use json_tokens::{byte_at, skip};

// Whether three bytes stand at an offset.
fn three(text: &[u8], i: usize, a: u8, b: u8, c: u8) -> bool
    requires { i ≤ most_text + 1 }
    ensures { result ≡ three_at text.now i a b c }
{
    (byte_at(text, i) == a) & ((byte_at(text, i + 1) == b) & (byte_at(text, i + 2) == c))
}

// The offset after `true`, whose first byte stands there.
#[tactic(auto, using(conditions::proofs::Tests::tests), unfolding(json_tokens::specs::Text::end_of, crate::specs::Grammar::true_at))]
fn after_true(text: &[u8], at: usize) -> Option<usize>
    requires { at ≤ most_text }
    ensures { result ≡ end_of (true_at text.now at) }
{
    if three(text, at + 1, 0x72, 0x75, 0x65) {
        return Some(at + 4);
    }
    None
}

// The offset after `null`, whose first byte stands there.
#[tactic(auto, using(conditions::proofs::Tests::tests), unfolding(json_tokens::specs::Text::end_of, crate::specs::Grammar::null_at))]
fn after_null(text: &[u8], at: usize) -> Option<usize>
    requires { at ≤ most_text }
    ensures { result ≡ end_of (null_at text.now at) }
{
    if three(text, at + 1, 0x75, 0x6c, 0x6c) {
        return Some(at + 4);
    }
    None
}

// The offset after `false`, whose first byte stands there.
#[tactic(auto, using(conditions::proofs::Tests::tests), unfolding(json_tokens::specs::Text::end_of, crate::specs::Grammar::false_at))]
fn after_false(text: &[u8], at: usize) -> Option<usize>
    requires { at ≤ most_text }
    ensures { result ≡ end_of (false_at text.now at) }
{
    if three(text, at + 1, 0x61, 0x6c, 0x73) & (byte_at(text, at + 4) == 0x65) {
        return Some(at + 5);
    }
    None
}

// The offset after a value that holds no others, by its first byte.
#[tactic(auto, using(conditions::proofs::Tests::tests, crate::proofs::Leaves::plain_string, crate::proofs::Leaves::plain_number), unfolding(crate::specs::Grammar::plain_by))]
fn plain_by(text: &[u8], at: usize, b: u8) -> Option<usize>
    requires { (length text.now ≤ most_text) × (at ≤ most_text) }
    ensures { result ≡ end_of (plain_by text.now at b) }
{
    if b == 0x22 {
        return json_tokens::string(text, at);
    }
    if b == 0x74 {
        return after_true(text, at);
    }
    if b == 0x66 {
        return after_false(text, at);
    }
    if b == 0x6e {
        return after_null(text, at);
    }
    json_tokens::number(text, at)
}

/// The offset after the value at an offset, where it is no list and no object; none where no such
/// value stands (RFC 8259, 3: `false / null / true / number / string`).
#[tactic(auto, using(crate::proofs::Values::plain_out))]
pub fn plain(text: &[u8], at: usize) -> Option<usize>
    requires { length text.now ≤ most_text }
    ensures { result ≡ end_of (plain_at text.now at) }
{
    if text.len() < at {
        return None;
    }
    plain_by(text, at, byte_at(text, at))
}

/// The offset at which the value of the member at an offset starts, after its name and colon; none
/// where these don't stand (RFC 8259, 4: `string name-separator`).
pub fn named(text: &[u8], at: usize) -> Option<usize>
    requires { length text.now ≤ most_text }
    ensures { result ≡ end_of (named_at text.now at) }
{
    let e = json_tokens::string(text, at)?;
    let k = skip(text, e);
    if byte_at(text, k) != 0x3a {
        return None;
    }
    Some(skip(text, k + 1))
}

/// What follows an opening bracket, or an item of a list or a member of an object.
#[derive(Clone, Copy)]
pub enum Turn {
    /// The closing bracket; the offset after it.
    Done(usize),
    /// An item or a member is to follow, at this offset.
    Next(usize),
    /// Neither.
    Bad,
}

/// What follows the opening bracket that ends at an offset, where this byte closes it (RFC 8259, 4
/// and 5).
#[inline]
#[tactic(auto, using(conditions::proofs::Tests::tests, json_tokens::proofs::Texts::stands), unfolding(crate::specs::Grammar::opened_at))]
pub fn opened(close: u8, text: &[u8], at: usize) -> Turn
    requires { 0 < close }
    ensures { result ≡ opened_at close text.now at }
{
    let k = skip(text, at);
    if byte_at(text, k) == close {
        return Turn::Done(k + 1);
    }
    Turn::Next(k)
}

/// What follows the item or the member that ends at an offset, where this byte closes the list or the
/// object (RFC 8259, 4 and 5).
#[inline]
#[tactic(auto, using(conditions::proofs::Tests::tests, json_tokens::proofs::Texts::stands), unfolding(crate::specs::Grammar::after_at))]
pub fn after(close: u8, text: &[u8], at: usize) -> Turn
    requires { 0 < close }
    ensures { result ≡ after_at close text.now at }
{
    let k = skip(text, at);
    let b = byte_at(text, k);
    if b == close {
        return Turn::Done(k + 1);
    }
    if b == 0x2c {
        return Turn::Next(skip(text, k + 1));
    }
    Turn::Bad
}

/// The offset after the value at an offset, in which `left` lists and objects may stand one in the
/// other; none where no such value stands (RFC 8259, 3).
#[cycle(values)]
pub fn value(text: &[u8], at: usize, left: usize) -> Option<usize>
    requires { length text.now ≤ most_text }
    ensures { result ≡ end_of (value_at left text.now at) }
{
    let b = byte_at(text, at);
    if left == 0 {
        return plain(text, at);
    }
    if b == 0x5b {
        return list(text, at + 1, left - 1);
    }
    if b == 0x7b {
        return object(text, at + 1, left - 1);
    }
    plain(text, at)
}

// The offset after the ] of the list whose [ ends at an offset (RFC 8259, 5).
#[cycle(values)]
fn list(text: &[u8], at: usize, left: usize) -> Option<usize>
    requires { length text.now ≤ most_text }
    ensures { result ≡ end_of (values_at left text.now at) }
{
    let mut turn = opened(0x5d, text, at);
    loop {
        match turn {
            Turn::Done(k) => return Some(k),
            Turn::Bad => return None,
            Turn::Next(i) => {
                let e = value(text, i, left)?;
                turn = after(0x5d, text, e);
            }
        }
    }
}

// The offset after the } of the object whose { ends at an offset (RFC 8259, 4).
#[cycle(values)]
fn object(text: &[u8], at: usize, left: usize) -> Option<usize>
    requires { length text.now ≤ most_text }
    ensures { result ≡ end_of (members_at left text.now at) }
{
    let mut turn = opened(0x7d, text, at);
    loop {
        match turn {
            Turn::Done(k) => return Some(k),
            Turn::Bad => return None,
            Turn::Next(i) => {
                let p = named(text, i)?;
                let e = value(text, p, left)?;
                turn = after(0x7d, text, e);
            }
        }
    }
}
