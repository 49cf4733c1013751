//! One string of a text, read into lent bytes.
ghost use Rattle.json_strings.specs.Reading.{StringInto};

use refusal::{Reason, Refusal};

/// The most bytes that a text has.
const MOST_TEXT: usize = 1_048_576;

/// Writes the bytes of the string whose opening quotation mark stands at an offset, in UTF-8 and
/// escapes resolved, over the first of those that are lent; answers how many they are. Refuses 60,
/// 61 where no string stands there, 32.
#[tactic(auto, using(crate::proofs::Whole::whole), unfolding(crate::specs::Reading::bytes_of, crate::specs::Reading::within, crate::specs::Reading::length_of, crate::specs::Reading::bytes_left))]
pub fn string_into(text: &[u8], at: usize, out: &mut [u8]) -> Result<usize, Refusal>
    ensures { StringInto text.now at out.old result out.new }
{
    if MOST_TEXT < text.len() {
        return Err(Reason::TextTooLong.at(0));
    }
    if json_tokens::string(text, at).is_none() {
        return Err(Reason::NotJson.at(0));
    }
    let length = crate::size(text, at);
    if out.len() < length {
        return Err(Reason::NoRoom.at(0));
    }
    crate::put(text, at, out, 0);
    Ok(length)
}
