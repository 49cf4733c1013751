//! The walk over the boxes of some bytes.
ghost use Rattle.std.specs.Prelude.{◌≡◌, length};
ghost use Rattle.boxes.specs.Boxes.{boxes_of, searched, first_of, is_text};
ghost use Rattle.boxes.specs.Walks.{stop_at, WalkStays};

use crate::size::header_at;
use crate::{Header, Walk};

// How a walk ends at a header that isn't whole.
pub(crate) fn stopped(header: Header, at: usize) -> Walk
    ensures { result ≡ stop_at header at }
{
    match header {
        Header::Bad => Walk::Bad { at },
        Header::Short | Header::Whole(_) => Walk::End,
    }
}

// Whether the four bytes of a type are text, all at once. Bytes of text don't borrow or carry, and
// leave no top bit; so the last byte that isn't text leaves one, in the difference where it is
// 00..1F or A0..FF hex, in the sum where it is 7F..9F.
#[tactic(auto, using(crate::proofs::Texts::text_is))]
fn is_text(kind: u32) -> bool
    ensures { result ≡ is_text kind }
{
    (kind.wrapping_sub(0x20202020) | kind.wrapping_add(0x01010101)) & 0x80808080 == 0
}

// The first box of a type; with text types a type that isn't text ends the walk as a broken header
// does (RULES 7.4).
pub(crate) fn find(bytes: &[u8], kind: u32, text_types: bool) -> Walk
    ensures { result ≡ first_of kind (searched text_types (boxes_of bytes.now)) }
{
    let mut at = 0;
    loop {
        let header = header_at(bytes, at);
        let Header::Whole(child) = header else {
            break stopped(header, at);
        };
        if text_types & !is_text(child.kind) {
            break Walk::Bad { at };
        }
        if child.kind == kind {
            break Walk::Found(child.payload());
        }
        at = child.next;
    }
}

/// The first child of a type among the boxes of some bytes, or how these end without it (RULES
/// 7.3). The walk stays within the bytes.
pub fn find_child(bytes: &[u8], kind: u32) -> Walk
    ensures first { result ≡ first_of kind (boxes_of bytes.now) }
    ensures stays { WalkStays (length bytes.now) result }
{
    find(bytes, kind, false)
}
