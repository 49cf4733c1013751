// Members by their types, at the places where they stand.
ghost use Rattle.std.specs.Prelude.{◌≡◌, ◌≤◌, length};
ghost use Rattle.json_tokens.specs.Text.{most_text};
ghost use Rattle.table_fields.specs.Found.{is_null, is_text, is_object, u64_by, i64_by, text_by, object_or_null_by, text_or_null_by, pair_by};

use json_fields::{i64_at, pair_at, u64_at};
use json_tokens::byte_at;

pub fn is_null(text: &[u8], at: usize) -> bool
    ensures { result ≡ is_null text.now at }
{
    byte_at(text, at) == b'n'
}

pub fn is_text(text: &[u8], at: usize) -> bool
    ensures { result ≡ is_text text.now at }
{
    byte_at(text, at) == b'"'
}

pub fn is_object(text: &[u8], at: usize) -> bool
    ensures { result ≡ is_object text.now at }
{
    byte_at(text, at) == b'{'
}

pub fn u64_by(text: &[u8], place: Option<usize>) -> Option<u64>
    requires { length text.now ≤ most_text }
    ensures { result ≡ u64_by text.now place }
{
    u64_at(text, place?)
}

pub fn i64_by(text: &[u8], place: Option<usize>) -> Option<i64>
    requires { length text.now ≤ most_text }
    ensures { result ≡ i64_by text.now place }
{
    i64_at(text, place?)
}

#[tactic(auto, unfolding(crate::specs::Found::passes))]
pub fn text_by(text: &[u8], place: Option<usize>) -> bool
    ensures { result ≡ text_by text.now place }
{
    match place {
        Some(at) => is_text(text, at),
        None => false,
    }
}

#[tactic(auto, unfolding(crate::specs::Found::passes))]
pub fn object_or_null_by(text: &[u8], place: Option<usize>) -> bool
    ensures { result ≡ object_or_null_by text.now place }
{
    match place {
        Some(at) => is_null(text, at) | is_object(text, at),
        None => false,
    }
}

#[tactic(auto, unfolding(crate::specs::Found::passes))]
pub fn text_or_null_by(text: &[u8], place: Option<usize>) -> bool
    ensures { result ≡ text_or_null_by text.now place }
{
    match place {
        Some(at) => is_null(text, at) | is_text(text, at),
        None => false,
    }
}

pub fn pair_by(text: &[u8], place: Option<usize>, left: usize) -> Option<(u64, u64)>
    requires { length text.now ≤ most_text }
    ensures { result ≡ pair_by left text.now place }
{
    pair_at(text, place?, left)
}
