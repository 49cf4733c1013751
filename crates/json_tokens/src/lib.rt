//! The tokens of RFC 8259 over a lent text of 1 MiB at most: blanks, strings and numbers, by the
//! offsets where they start and where they end.
#![tactic(auto)]

mod chars;
mod numbers;

ghost use Rattle.std.specs.Prelude.{◌≡◌, ◌≤◌, length};
ghost use Rattle.json_tokens.specs.Text.{most_text, byte_at, blanks, is_blank, is_digit, digits as digits_at, end_of};
ghost use Rattle.json_tokens.specs.Chars.{is_plain};
ghost use Rattle.json_tokens.specs.Strings.{string_at};

pub use chars::char_at;
pub use numbers::{after_minus, number};

/// The byte at an offset; 0, which no token of RFC 8259 has, past the end.
#[inline]
pub fn byte_at(text: &[u8], i: usize) -> u8
    ensures { result ≡ byte_at text.now i }
{
    if i < text.len() { text[i] } else { 0 }
}

#[inline]
fn is_blank(b: u8) -> bool
    ensures { result ≡ is_blank b }
{
    ((b == 0x20) | (b == 0x09)) | ((b == 0x0a) | (b == 0x0d))
}

#[inline]
fn is_digit(b: u8) -> bool
    ensures { result ≡ is_digit b }
{
    (0x30 <= b) & (b <= 0x39)
}

/// Whether a byte is a character of a string by itself: ASCII, unescaped (RFC 8259, 7).
#[inline]
pub fn is_plain(b: u8) -> bool
    ensures { result ≡ is_plain b }
{
    ((0x20 <= b) & (b < 0x80)) & ((b != 0x22) & (b != 0x5c))
}

/// The offset after the blanks from an offset on (RFC 8259, 2: `ws`).
#[inline]
#[tactic(auto, using(crate::proofs::Texts::past_turn, crate::proofs::Texts::past_stop, crate::proofs::Texts::past_out))]
pub fn skip(text: &[u8], i: usize) -> usize
    ensures { result ≡ blanks text.now i }
{
    let mut k = i;
    while k < text.len() {
        if !is_blank(text[k]) {
            return k;
        }
        k += 1;
    }
    k
}

/// The offset after the digits from an offset on.
#[inline]
#[tactic(auto, using(crate::proofs::Texts::past_turn, crate::proofs::Texts::past_stop, crate::proofs::Texts::past_out))]
pub fn digits(text: &[u8], i: usize) -> usize
    ensures { result ≡ digits_at text.now i }
{
    let mut k = i;
    while k < text.len() {
        if !is_digit(text[k]) {
            return k;
        }
        k += 1;
    }
    k
}

/// The offset after the string at an offset (RFC 8259, 7); none where no string stands.
pub fn string(text: &[u8], at: usize) -> Option<usize>
    requires { length text.now ≤ most_text }
    ensures { result ≡ end_of (string_at text.now at) }
{
    if byte_at(text, at) != 0x22 {
        return None;
    }
    let mut i = at + 1;
    while i < text.len() {
        let b = text[i];
        if is_plain(b) {
            i += 1;
            continue;
        }
        if b == 0x22 {
            return Some(i + 1);
        }
        let (_, e) = char_at(text, i)?;
        i = e;
    }
    None
}
