// A box's size, and the header at an offset.
ghost use Rattle.std.specs.Prelude.{◌≡◌, ◌≤◌, length};
ghost use Rattle.boxes.specs.Boxes.{fitting_in, size_of, header_at};

use crate::read::{be32, be64};
use crate::{BoxAt, BoxSize, Header};

// A size and its header's, where the size is at least the header and at most what remains.
fn fitting(remaining: u64, header: u64, size: u64) -> Option<BoxSize>
    ensures { result ≡ fitting_in remaining header size }
{
    if size < header {
        return None;
    }
    if remaining < size {
        return None;
    }
    Some(BoxSize { size, header })
}

// The Rust's box_size, with no limit (RULES 7.9).
#[tactic(auto, unfolding(crate::specs::Boxes::size_of))]
pub(crate) fn size_of(data: &[u8], remaining: u64) -> Option<BoxSize>
    ensures { result ≡ size_of «data».now remaining }
{
    if data.len() < 4 {
        return None;
    }
    let size = be32(data, 0) as u64;
    if size == 0 {
        return fitting(remaining, 8, remaining);
    }
    if size == 1 {
        if data.len() < 16 {
            return None;
        }
        return fitting(remaining, 16, be64(data, 8));
    }
    fitting(remaining, 8, size)
}

// The header of the box at an offset, whatever its size says.
fn any_header_at(bytes: &[u8], at: usize) -> Header
    requires { at ≤ length bytes.now }
    ensures { result ≡ header_at bytes.now at }
{
    let left = bytes.len() - at;
    if left < 8 {
        return Header::Short;
    }
    let Some(BoxSize { size, header }) = size_of(&bytes[at..], left as u64) else {
        return Header::Bad;
    };
    let start = at + (header as usize);
    let len = (size - header) as usize;
    let next = at + (size as usize);
    Header::Whole(BoxAt {
        kind: be32(bytes, at + 4),
        start,
        len,
        next,
    })
}

// The header of the box at an offset: a turn of the Rust's children. Nearly every size has 32 bits
// and fits; such a box is answered here, so that a walk passes it without a call. A size below 8
// wraps, and is more than is left.
pub(crate) fn header_at(bytes: &[u8], at: usize) -> Header
    requires { at ≤ length bytes.now }
    ensures { result ≡ header_at bytes.now at }
{
    let left = bytes.len() - at;
    if left < 8 {
        return Header::Short;
    }
    let size = be32(bytes, at) as usize;
    let len = size.wrapping_sub(8);
    if left - 8 < len {
        return any_header_at(bytes, at);
    }
    Header::Whole(BoxAt {
        kind: be32(bytes, at + 4),
        start: at + 8,
        len,
        next: at + size,
    })
}
