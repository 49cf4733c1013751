//! The boxes of an ISO base media file (ISO/IEC 14496-12): RULES 7. The calls are here; what they
//! and the frame times stand on is in the modules.
#![tactic(auto)]

mod mtrm;
pub mod places;
pub mod read;
pub mod search;
mod size;
pub mod track;

ghost use Rattle.std.specs.Prelude.{◌≡◌};
ghost use Rattle.std.specs.Result.{result_ok};
ghost use Rattle.boxes.specs.Boxes.{box_size, children_at, place};
ghost use Rattle.boxes.specs.Places.{PartAt, child_place, find_box_place, table_text_place};
ghost use Rattle.boxes.specs.Examples.{WorkedExamples};

use mtrm::table_of;
use places::part;
use read::code;
use refusal::{Reason, Refusal};
use search::{find, find_child};
use size::{header_at, size_of};

/// The most bytes that a call takes: over them it refuses with `TooLong` (30).
pub const MOST_BYTES: usize = 16_777_216;

/// A box's size in bytes, its header included, and its header's: 8, or 16 with a size of 64 bits
/// (ISO/IEC 14496-12, 4.2).
#[derive(Clone, Copy, Debug, PartialEq, Eq)]
pub struct BoxSize {
    pub size: u64,
    pub header: u64,
}

/// A box. Offsets count from the first of the bytes that were walked over.
#[derive(Clone, Copy, Debug, PartialEq, Eq)]
pub struct BoxAt {
    /// Its type, four letters as a number.
    pub kind: u32,
    /// The offset of its payload.
    pub start: usize,
    /// How many bytes its payload has.
    pub len: usize,
    /// The offset of the next box.
    pub next: usize,
}

impl BoxAt {
    // Where its payload lies.
    pub(crate) fn payload(self) -> Place
        ensures { result ≡ place self.start self.len }
    {
        Place {
            start: self.start,
            len: self.len,
        }
    }
}

/// What stands where a box's header should.
#[derive(Clone, Copy, Debug, PartialEq, Eq)]
pub enum Header {
    /// A whole header, and the box that it begins.
    Whole(BoxAt),
    /// Fewer than 8 bytes are left.
    Short,
    /// The header isn't whole, or the size doesn't fit.
    Bad,
}

/// Where a part of the caller's bytes lies.
#[derive(Clone, Copy, Debug, PartialEq, Eq)]
pub struct Place {
    /// The offset of its first byte.
    pub start: usize,
    /// How many bytes it has.
    pub len: usize,
}

/// How a walk over boxes ends (RULES 7.6).
#[derive(Clone, Copy, Debug, PartialEq, Eq)]
pub enum Walk {
    /// The payload of the box that was looked for.
    Found(Place),
    /// Fewer than 8 bytes were left.
    End,
    /// At an offset stands a header that isn't whole, whose size doesn't fit, or whose type isn't
    /// text where it must be.
    Bad { at: usize },
}

/// The size of the box at the start of `data`, and its header's, where `remaining` bytes are left
/// of what it is in: the Rust's `box_size` (RULES 7.9; ISO/IEC 14496-12, 4.2). Refuses with
/// `TooLong` (30), or with `Missing` (31) where the size isn't whole in `data` or doesn't fit.
pub fn box_size(data: &[u8], remaining: u64) -> Result<BoxSize, Refusal>
    ensures { result ≡ box_size «data».now remaining }
{
    if data.len() > MOST_BYTES {
        return Err(Reason::TooLong.at(0));
    }
    size_of(data, remaining).ok_or(Reason::Missing.at(0))
}

/// The box at an offset of `payload`: a turn of the Rust's `children` (RULES 7.3). From 0 on, and
/// then from each answer's `next`, all boxes are met, in order. Refuses with `TooLong` (30);
/// `BadSearch` (42) for an offset past the bytes; `Missing` (31) where the boxes end; `Broken`
/// (36), with the offset, at a broken header.
pub fn children(payload: &[u8], at: usize) -> Result<BoxAt, Refusal>
    ensures { result ≡ children_at payload.now at }
{
    if payload.len() > MOST_BYTES {
        return Err(Reason::TooLong.at(0));
    }
    if payload.len() < at {
        return Err(Reason::BadSearch.at(0));
    }
    match header_at(payload, at) {
        Header::Whole(found) => Ok(found),
        Header::Short => Err(Reason::Missing.at(0)),
        Header::Bad => Err(Reason::Broken.at(at)),
    }
}

/// Where the payload of the first child of a type lies: the Rust's `child` (RULES 7.3). Refuses
/// with `TooLong` (30), `Missing` (31), or `Broken` (36) with the offset of the broken header.
pub fn child_place(payload: &[u8], kind: u32) -> Result<Place, Refusal>
    ensures { result ≡ child_place payload.now kind }
{
    if payload.len() > MOST_BYTES {
        return Err(Reason::TooLong.at(0));
    }
    find_child(payload, kind).answer()
}

/// That payload, as that part of the caller's bytes; empty on a refusal (RULES 7.7).
#[tactic(auto, using(crate::proofs::Within::child_within))]
pub fn child(payload: &[u8], kind: u32) -> &[u8]
    ensures { PartAt payload.entry (result_ok (child_place payload.now kind)) result }
{
    part(payload, child_place(payload, kind).ok())
}

/// Where the payload of the first box of a type among those from `start` to `end` lies: the Rust's
/// `find_box` (RULES 7.4). Places and a broken header's offset are those in the whole of `bytes`.
/// With `text_types` a type that isn't text makes a header broken. Refuses with `TooLong` (30);
/// `BadSearch` (42) for a range that isn't in the bytes; `Missing` (31); or `Broken` (36), with the
/// offset.
#[tactic(auto, using(crate::proofs::Within::offset_moves), unfolding(crate::specs::Places::find_box_place))]
pub fn find_box_place(
    bytes: &[u8],
    start: usize,
    end: usize,
    kind: u32,
    text_types: bool,
) -> Result<Place, Refusal>
    ensures { result ≡ find_box_place bytes.now start end kind text_types }
{
    if bytes.len() > MOST_BYTES {
        return Err(Reason::TooLong.at(0));
    }
    if bytes.len() < end {
        return Err(Reason::BadSearch.at(0));
    }
    if end < start {
        return Err(Reason::BadSearch.at(0));
    }
    let found = find(&bytes[start..end], kind, text_types);
    found.moved(start).answer()
}

/// That payload, as that part of the caller's bytes; empty on a refusal (RULES 7.7).
#[tactic(auto, using(crate::proofs::Within::find_box_within))]
pub fn find_box(bytes: &[u8], start: usize, end: usize, kind: u32, text_types: bool) -> &[u8]
    ensures { PartAt bytes.entry (result_ok (find_box_place bytes.now start end kind text_types))
        result }
{
    part(
        bytes,
        find_box_place(bytes, start, end, kind, text_types).ok(),
    )
}

/// Where a file's segment table has its text: the search of the Rust's `read_isobmff` (RULES 7.5).
/// Refuses with `TooLong` (30), `NoTable` (40), or `SeveralTables` (41).
pub fn table_text_place(file: &[u8]) -> Result<Place, Refusal>
    ensures { result ≡ table_text_place file.now }
{
    if file.len() > MOST_BYTES {
        return Err(Reason::TooLong.at(0));
    }
    let moov = find(file, code(b"moov"), true);
    let Place { start, len } = moov.place().ok_or(Reason::NoTable.at(0))?;
    let table = table_of(&file[start..start + len])?;
    Ok(table.moved(start))
}

/// That text, as that part of the caller's bytes; empty on a refusal (RULES 7.7).
#[tactic(auto, using(crate::proofs::Within::table_text_within))]
pub fn table_text(file: &[u8]) -> &[u8]
    ensures { PartAt file.entry (result_ok (table_text_place file.now)) result }
{
    part(file, table_text_place(file).ok())
}

/// The definitions give the numbers of specs/Examples.antt.
pub fn worked_examples_hold()
    ensures { WorkedExamples }
{}
