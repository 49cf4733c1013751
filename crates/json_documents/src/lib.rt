//! A document of RFC 8259, read once: where its value ends, and whether an object in it has two
//! members of the same name.
#![tactic(auto)]

mod seen;

ghost use Rattle.std.specs.Prelude.{◌≡◌, ◌*◌, ◌-◌, ◌≤◌, length, take, drop};
ghost use Rattle.json_tokens.specs.Text.{most_text};
ghost use Rattle.json_values.specs.Grammar.{plain_at, value_at, values_at, members_at, document_of};
ghost use Rattle.sorted_names.specs.Sorted.{name_at, twice};
ghost use Rattle.json_documents.specs.Seen.{seen_of, seen_values, seen_members};

use json_tokens::{byte_at, skip};
use json_values::{Turn, after, named, opened, plain};
pub use seen::Document;
use sorted_names::has_twice;

// A value that holds no others.
#[tactic(auto, using(crate::proofs::Leaves::leaves))]
fn leaf(text: &[u8], at: usize) -> Option<Document>
    requires { length text.now ≤ most_text }
    ensures { result ≡ seen_of (plain_at text.now at) }
{
    let end = plain(text, at)?;
    Some(Document {
        end,
        repeats: false,
    })
}

// Whether two of the names that lie in the working room from `bottom` to `top` are the same.
fn repeats_between(text: &[u8], work: &mut [u64], bottom: usize, top: usize) -> bool
    requires short { length text.now ≤ most_text }
    requires ordered { bottom ≤ top }
    requires within { top ≤ length work.old }
    ensures said { result ≡ twice (name_at text.now) (take (top - bottom) (drop bottom work.old)) }
    ensures kept { take bottom work.new ≡ take bottom work.old }
{
    has_twice(text, &mut work[bottom..top])
}

// The value at an offset, in which `left` lists and objects may stand one in the other. The working
// room is a stack of the places of names, those of the members read of each open object; what lies
// below `top` is kept. Each member has four bytes at least, so that the stack never outgrows a
// quarter of the text.
#[cycle(documents)]
fn value(text: &[u8], at: usize, left: usize, work: &mut [u64], top: usize) -> Option<Document>
    requires short { length text.now ≤ most_text }
    requires room { length text.now ≤ 4 * length work.old }
    requires below { 4 * top ≤ at }
    requires within { top ≤ length work.old }
    ensures seen { result ≡ seen_of (value_at left text.now at) }
    ensures kept { take top work.new ≡ take top work.old }
{
    let b = byte_at(text, at);
    if left == 0 {
        return leaf(text, at);
    }
    if b == 0x5b {
        return list(text, at + 1, left - 1, work, top);
    }
    if b == 0x7b {
        return object(text, at + 1, left - 1, work, top);
    }
    leaf(text, at)
}

// The list whose [ ends at an offset.
#[cycle(documents)]
fn list(text: &[u8], at: usize, left: usize, work: &mut [u64], top: usize) -> Option<Document>
    requires short { length text.now ≤ most_text }
    requires room { length text.now ≤ 4 * length work.old }
    requires below { 4 * top ≤ at }
    requires within { top ≤ length work.old }
    ensures seen { result ≡ seen_values (values_at left text.now at) }
    ensures kept { take top work.new ≡ take top work.old }
{
    let mut turn = opened(0x5d, text, at);
    let mut repeats = false;
    loop {
        match turn {
            Turn::Done(end) => return Some(Document { end, repeats }),
            Turn::Bad => return None,
            Turn::Next(i) => {
                let item = value(text, i, left, work, top)?;
                repeats |= item.repeats;
                turn = after(0x5d, text, item.end);
            }
        }
    }
}

// The object whose { ends at an offset.
#[cycle(documents)]
fn object(text: &[u8], at: usize, left: usize, work: &mut [u64], bottom: usize) -> Option<Document>
    requires short { length text.now ≤ most_text }
    requires room { length text.now ≤ 4 * length work.old }
    requires below { 4 * bottom ≤ at }
    requires within { bottom ≤ length work.old }
    ensures seen { result ≡ seen_members (members_at left text.now at) }
    ensures kept { take bottom work.new ≡ take bottom work.old }
{
    let mut turn = opened(0x7d, text, at);
    let mut top = bottom;
    let mut repeats = false;
    loop {
        match turn {
            Turn::Done(end) => {
                let twice = repeats_between(text, work, bottom, top);
                return Some(Document {
                    end,
                    repeats: repeats | twice,
                });
            }
            Turn::Bad => return None,
            Turn::Next(name) => {
                let at = named(text, name)?;
                let member = value(text, at, left, work, top)?;
                work[top] = name as u64;
                top += 1;
                repeats |= member.repeats;
                turn = after(0x7d, text, member.end);
            }
        }
    }
}

/// Reads a text that is a value with blanks around it (RFC 8259, 2: `JSON-text`), in which 32 lists
/// and objects may stand one in the other: where that value ends, and whether an object in it
/// repeats a name. None where the text is no such value.
///
/// `work` is working room: a word for each four bytes of the text, of any value before and after.
pub fn document(text: &[u8], work: &mut [u64]) -> Option<Document>
    requires short { length text.now ≤ most_text }
    requires room { length text.now ≤ 4 * length work.old }
    ensures { result ≡ seen_of (document_of text.now) }
{
    let whole = value(text, skip(text, 0), 32, work, 0)?;
    if skip(text, whole.end) == text.len() {
        return Some(whole);
    }
    None
}
