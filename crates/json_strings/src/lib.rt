//! The characters of a string of a text (RFC 8259, 7), escapes resolved, and their bytes in UTF-8.
#![tactic(auto)]

pub mod reading;

ghost use Rattle.std.specs.Prelude.{◌≡◌, ◌+◌, ◌*◌, ◌≤◌, ◌++◌, take, drop, length};
ghost use Rattle.json_tokens.specs.Text.{most_text};
ghost use Rattle.json_strings.specs.Texts.{string_bytes};
ghost use Rattle.utc.specs.Utc.{utc_second};

use json_tokens::{byte_at, char_at};

/// The characters of a string that a walk hasn't passed. The walk ends where the string does, or at
/// what is no character.
#[derive(Clone, Copy)]
pub struct Chars<'a> {
    /// The text that the string stands in, of 1 MiB at most.
    pub text: &'a [u8],
    /// The offset of the next character, or of the quotation mark after the last.
    pub at: usize,
    ghost short: { length text.now ≤ most_text },
}

impl<'a> Chars<'a> {
    ghost use Rattle.std.specs.Prelude.{◌≡◌, ◌+◌, ◌≤◌, length};
    ghost use Rattle.json_strings.specs.Texts.{lead_chars};
    ghost use Rattle.json_strings.specs.Left.{chars_left};

    /// Those of the string whose opening quotation mark stands at an offset.
    #[inline]
    #[tactic(auto, using(crate::proofs::Turns::chars_past))]
    pub fn of(text: &'a [u8], at: usize) -> Chars<'a>
        requires { length text.now ≤ most_text }
        ensures { chars_left result ≡ lead_chars text.now (at + 1) }
    {
        if at >= text.len() {
            return Chars { text, at };
        }
        Chars { text, at: at + 1 }
    }
}

#[tactic(auto, using(crate::proofs::Turns::char_turns))]
impl Iterator for Chars<'_> {
    ghost use Rattle.std.specs.Iterator.{YieldsFirst, item_count};
    ghost use Rattle.json_strings.specs.Left.{chars_left};

    type Item = char;

    ghost next_gives = { YieldsFirst chars_left };

    ghost remaining = { item_count chars_left };

    #[inline]
    fn next(&mut self) -> Option<char> {
        if self.at >= self.text.len() {
            return None;
        }
        if byte_at(self.text, self.at) == 0x22 {
            return None;
        }
        let (code, end) = char_at(self.text, self.at)?;
        let character = char::from_u32(code as u32)?;
        self.at = end;
        Some(character)
    }
}

/// How many bytes the string at an offset has in UTF-8, escapes resolved.
#[tactic(auto, using(crate::proofs::Sizes::sizes))]
pub fn size(text: &[u8], at: usize) -> usize
    requires { length text.now ≤ most_text }
    ensures value { result ≡ length (string_bytes text.now at) }
    ensures bounded { result ≤ 4 * most_text }
{
    let mut size: usize = 0;
    for c in Chars::of(text, at) {
        size += c.len_utf8();
    }
    size
}

/// Writes a part over what stands from an offset on; answers the offset after it.
pub fn write_at<T: Copy>(out: &mut [T], from: usize, part: &[T]) -> usize
    requires { from + length part.now ≤ length out.old }
    ensures end { result ≡ from + length part.now }
    ensures written { out.new
        ≡ take from out.old ++ (part.now ++ drop (from + length part.now) out.old) }
{
    let end = from + part.len();
    out[from..end].copy_from_slice(part);
    end
}

/// Writes the bytes of the string at an offset, in UTF-8 and escapes resolved, over those from an
/// offset on; answers the offset after them.
#[tactic(auto, using(crate::proofs::Sizes::sizes))]
pub fn put(text: &[u8], at: usize, out: &mut [u8], from: usize) -> usize
    requires within { length text.now ≤ most_text }
    requires room { from + length (string_bytes text.now at) ≤ length out.old }
    ensures end { result ≡ from + length (string_bytes text.now at) }
    ensures written { out.new ≡ take from out.old
        ++ (string_bytes text.now at ++ drop (from + length (string_bytes text.now at)) out.old) }
{
    let mut n = from;
    for c in Chars::of(text, at) {
        let mut buffer = [0u8; 4];
        let bytes = c.encode_utf8(&mut buffer).as_bytes();
        n = write_at(out, n, bytes);
    }
    n
}

/// Whether the string at an offset is a time of day of a date, to the second, in UTC:
/// `YYYY-MM-DDTHH:MM:SSZ`.
#[tactic(auto, using(crate::proofs::Sizes::laid_whole), unfolding(utc::specs::Utc::utc_second))]
pub fn is_utc(text: &[u8], at: usize) -> bool
    requires { length text.now ≤ most_text }
    ensures { result ≡ utc_second (string_bytes text.now at) }
{
    if size(text, at) != 20 {
        return false;
    }
    let mut buffer = [0u8; 20];
    put(text, at, &mut buffer, 0);
    utc::is_utc_second(&buffer)
}
