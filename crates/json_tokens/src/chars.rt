//! A character of a string (RFC 8259, 7), over UTF-8 (RFC 3629, 4).
ghost use Rattle.std.specs.Prelude.{◌≡◌, ◌+◌, ◌≤◌};
ghost use Rattle.json_tokens.specs.Text.{most_text, byte_at};
ghost use Rattle.json_tokens.specs.Chars.{hex_of, unit_of, unit_at, escape_of, pair_of, unit_by, escape_by, two_of, three_by, three_of, four_by, four_of, many_by, char_by, char_at};

use crate::byte_at;

#[tactic(auto, using(conditions::proofs::Tests::tests), unfolding(crate::specs::Chars::hex_of))]
fn hex_of(b: u64) -> u64
    ensures { result ≡ hex_of b }
{
    if (0x30 <= b) & (b <= 0x39) {
        return b % 16;
    }
    if (0x41 <= b) & (b <= 0x46) {
        return b % 16 + 9;
    }
    if (0x61 <= b) & (b <= 0x66) {
        return b % 16 + 9;
    }
    16
}

#[tactic(auto, using(conditions::proofs::Tests::tests), unfolding(crate::specs::Chars::unit_of))]
fn unit_of(a: u64, b: u64, c: u64, d: u64) -> u64
    ensures { result ≡ unit_of a b c d }
{
    if ((15 < a) | (15 < b)) | ((15 < c) | (15 < d)) {
        return 0x10000;
    }
    ((a * 16 + b) * 16 + c) * 16 + d
}

fn hex_at(text: &[u8], i: usize) -> u64
    ensures { result ≡ hex_of (byte_at text.now i) }
{
    hex_of(byte_at(text, i) as u64)
}

fn unit_at(text: &[u8], i: usize) -> u64
    requires { i ≤ most_text + 8 }
    ensures { result ≡ unit_at text.now i }
{
    unit_of(
        hex_at(text, i),
        hex_at(text, i + 1),
        hex_at(text, i + 2),
        hex_at(text, i + 3),
    )
}

#[tactic(auto, using(conditions::proofs::Tests::tests), unfolding(crate::specs::Chars::escape_of))]
fn escape_of(b: u64) -> u64
    ensures { result ≡ escape_of b }
{
    if ((b == 0x22) | (b == 0x5c)) | (b == 0x2f) {
        return b;
    }
    if b == 0x62 {
        return 8;
    }
    if b == 0x66 {
        return 12;
    }
    if b == 0x6e {
        return 10;
    }
    if b == 0x72 {
        return 13;
    }
    if b == 0x74 {
        return 9;
    }
    0
}

#[tactic(auto, using(conditions::proofs::Tests::tests), unfolding(crate::specs::Chars::pair_of))]
fn pair_of(u: u64, b: u8, c: u8, low: u64, i: usize) -> Option<(u64, usize)>
    requires { i ≤ most_text + 8 }
    ensures { result ≡ pair_of u b c low i }
{
    if ((b != 0x5c) | (c != 0x75)) | ((low < 0xdc00) | (0xdfff < low)) {
        return None;
    }
    Some((u % 0x400 * 0x400 + low % 0x400 + 0x10000, i + 6))
}

#[tactic(auto, using(conditions::proofs::Tests::tests), unfolding(crate::specs::Chars::unit_by))]
fn unit_by(text: &[u8], u: u64, i: usize) -> Option<(u64, usize)>
    requires { i ≤ most_text + 6 }
    ensures { result ≡ unit_by text.now u i }
{
    if 0xffff < u {
        return None;
    }
    if u < 0xd800 {
        return Some((u, i));
    }
    if u < 0xdc00 {
        return pair_of(
            u,
            byte_at(text, i),
            byte_at(text, i + 1),
            unit_at(text, i + 2),
            i,
        );
    }
    if u < 0xe000 {
        return None;
    }
    Some((u, i))
}

#[tactic(auto, using(conditions::proofs::Tests::tests), unfolding(crate::specs::Chars::escape_by))]
fn escape_by(text: &[u8], i: usize, b: u8) -> Option<(u64, usize)>
    requires { i ≤ most_text + 1 }
    ensures { result ≡ escape_by text.now i b }
{
    if b == 0x75 {
        return unit_by(text, unit_at(text, i + 1), i + 5);
    }
    let e = escape_of(b as u64);
    if e == 0 {
        return None;
    }
    Some((e, i + 1))
}

#[tactic(auto, using(conditions::proofs::Tests::tests), unfolding(crate::specs::Chars::two_of))]
fn two_of(b: u64, c: u64, i: usize) -> Option<(u64, usize)>
    requires { i ≤ most_text }
    ensures { result ≡ two_of b c i }
{
    if c / 64 == 2 {
        return Some((b % 32 * 64 + c % 64, i + 2));
    }
    None
}

#[tactic(auto, using(conditions::proofs::Tests::tests), unfolding(crate::specs::Chars::three_by))]
fn three_by(u: u64, i: usize) -> Option<(u64, usize)>
    requires { i ≤ most_text }
    ensures { result ≡ three_by u i }
{
    if (u < 0x800) | (u / 0x800 == 27) {
        return None;
    }
    Some((u, i + 3))
}

#[tactic(auto, using(conditions::proofs::Tests::tests), unfolding(crate::specs::Chars::three_of))]
fn three_of(b: u64, c: u64, d: u64, i: usize) -> Option<(u64, usize)>
    requires { i ≤ most_text }
    ensures { result ≡ three_of b c d i }
{
    if (c / 64 == 2) & (d / 64 == 2) {
        return three_by((b % 16 * 64 + c % 64) * 64 + d % 64, i);
    }
    None
}

#[tactic(auto, using(conditions::proofs::Tests::tests), unfolding(crate::specs::Chars::four_by))]
fn four_by(u: u64, i: usize) -> Option<(u64, usize)>
    requires { i ≤ most_text }
    ensures { result ≡ four_by u i }
{
    if (u < 0x10000) | (0x10ffff < u) {
        return None;
    }
    Some((u, i + 4))
}

#[tactic(auto, using(conditions::proofs::Tests::tests), unfolding(crate::specs::Chars::four_of))]
fn four_of(b: u64, c: u64, d: u64, e: u64, i: usize) -> Option<(u64, usize)>
    requires { i ≤ most_text }
    ensures { result ≡ four_of b c d e i }
{
    if (c / 64 == 2) & ((d / 64 == 2) & (e / 64 == 2)) {
        return four_by(((b % 8 * 64 + c % 64) * 64 + d % 64) * 64 + e % 64, i);
    }
    None
}

#[tactic(auto, using(conditions::proofs::Tests::tests), unfolding(crate::specs::Chars::many_by))]
fn many_by(text: &[u8], i: usize, b: u8) -> Option<(u64, usize)>
    requires { i ≤ most_text }
    ensures { result ≡ many_by text.now i b }
{
    if b < 0xc2 {
        return None;
    }
    let c = byte_at(text, i + 1) as u64;
    if b < 0xe0 {
        return two_of(b as u64, c, i);
    }
    let d = byte_at(text, i + 2) as u64;
    if b < 0xf0 {
        return three_of(b as u64, c, d, i);
    }
    if b < 0xf5 {
        return four_of(b as u64, c, d, byte_at(text, i + 3) as u64, i);
    }
    None
}

#[tactic(auto, using(conditions::proofs::Tests::tests), unfolding(crate::specs::Chars::char_by))]
fn char_by(text: &[u8], i: usize, b: u8) -> Option<(u64, usize)>
    requires { i ≤ most_text }
    ensures { result ≡ char_by text.now i b }
{
    if b < 0x20 {
        return None;
    }
    if b == 0x5c {
        return escape_by(text, i + 1, byte_at(text, i + 1));
    }
    if b < 0x80 {
        return Some((b as u64, i + 1));
    }
    many_by(text, i, b)
}

/// The character at an offset of a string, where no quotation mark stands: its code point, and the
/// offset after it. None where the bytes are no character.
pub fn char_at(text: &[u8], i: usize) -> Option<(u64, usize)>
    requires { i ≤ most_text }
    ensures { result ≡ char_at text.now i }
{
    char_by(text, i, byte_at(text, i))
}
