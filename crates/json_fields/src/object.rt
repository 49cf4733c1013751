// Where the members of an object stand that are asked for, put down in one walk over it.
ghost use Rattle.std.specs.Prelude.{◌≡◌, ◌≤◌, true, length, map, IfSome};
ghost use Rattle.json_tokens.specs.Text.{most_text};
ghost use Rattle.json_tokens.specs.Strings.{string_at};
ghost use Rattle.json_fields.specs.Fields.{is_key, member_at};
ghost use Rattle.json_fields.specs.Sought.{stands_at, are_keys, told, OnlyAt};

use json_tokens::{byte_at, char_at};
use json_walks::Members;

// Whether the string at an offset, escapes resolved, is a key.
fn is_key(text: &[u8], at: usize, key: &[u8]) -> bool
    requires { length text.now ≤ most_text }
    ensures { result ≡ is_key key.now (string_at text.now at) }
{
    if byte_at(text, at) != 0x22 {
        return false;
    }
    let mut i = at + 1;
    let mut k = 0;
    while i < text.len() {
        if byte_at(text, i) == 0x22 {
            return k == key.len();
        }
        if k >= key.len() {
            return false;
        }
        let Some((u, e)) = char_at(text, i) else {
            return false;
        };
        if u != (key[k] as u64) {
            return false;
        }
        k += 1;
        i = e;
    }
    false
}

// Whether a key stands at an offset byte by byte, and then a quotation mark.
#[tactic(auto, unfolding(crate::specs::Sought::stands_at))]
#[inline(always)]
fn stands(text: &[u8], at: usize, key: &[u8]) -> bool
    requires { at ≤ most_text }
    ensures { result ≡ stands_at key.now text.now at }
{
    let end = at + key.len();
    end < text.len() && (text[end] == b'"' && &text[at..end] == key)
}

// The key that stands after the quotation mark at an offset; the one that is likely is tried first.
#[tactic(auto, using(crate::proofs::Sought::stands_only, json_tokens::proofs::Texts::stands))]
fn standing(text: &[u8], at: usize, keys: &[&[u8]], likely: usize) -> Option<usize>
    requires short { length text.now ≤ most_text }
    requires kept { are_keys (told keys.now) ≡ true }
    ensures { IfSome result (OnlyAt (told keys.now) (string_at text.now at)) }
{
    if byte_at(text, at) != b'"' {
        return None;
    }
    if likely < keys.len() && stands(text, at + 1, keys[likely]) {
        return Some(likely);
    }
    for k in 0..keys.len() {
        if stands(text, at + 1, keys[k]) {
            return Some(k);
        }
    }
    None
}

// Which of the keys the name at an offset is; their number where it is none.
#[tactic(auto, using(crate::proofs::Sought::only, crate::proofs::Sought::none_yet, crate::proofs::Sought::none_at_all))]
fn which(text: &[u8], at: usize, keys: &[&[u8]], likely: usize) -> usize
    requires short { length text.now ≤ most_text }
    requires kept { are_keys (told keys.now) ≡ true }
    ensures { OnlyAt (told keys.now) (string_at text.now at) result }
{
    if let Some(k) = standing(text, at, keys, likely) {
        return k;
    }
    for k in 0..keys.len() {
        if is_key(text, at, keys[k]) {
            return k;
        }
    }
    keys.len()
}

/// Where the value of the first member of each name stands, of the object at an offset, in whose
/// members so many lists and objects may stand one in the other; none where it has no such member, or
/// where no object stands there. Names that stand in the order of the keys are found at once.
#[tactic(auto, using(crate::proofs::Sought::none_noted))]
pub fn places<const N: usize>(
    text: &[u8],
    at: usize,
    left: usize,
    keys: &[&[u8]],
) -> [Option<usize>; N]
    requires short { length text.now ≤ most_text }
    requires counted { length keys.now ≡ N }
    requires kept { are_keys (told keys.now) ≡ true }
    ensures { result ≡ map (member_at left text.now at) (told keys.now) }
{
    let mut places = [None; N];
    if byte_at(text, at) != b'{' {
        return places;
    }
    let mut likely = 0;
    for m in Members::of(text, at + 1, left) {
        let k = which(text, m.name, keys, likely);
        if k < N {
            places[k] = places[k].or(Some(m.value));
            likely = k + 1;
        }
    }
    places
}
