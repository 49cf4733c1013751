//! Box sizes and searches.
use crate::case::{Bytes, Case, Fault};
use crate::line::{Line, Values};
use boxes::{BoxAt, BoxSize, Place};
use refusal::Refusal;

impl Values for BoxSize {
    fn say(self, line: &mut Line) -> Result<(), Fault> {
        line.value(self.size)?;
        line.value(self.header)
    }
}

impl Values for BoxAt {
    fn say(self, line: &mut Line) -> Result<(), Fault> {
        line.value(self.kind)?;
        line.value(self.start)?;
        line.value(self.len)?;
        line.value(self.next)
    }
}

impl Values for Place {
    fn say(self, line: &mut Line) -> Result<(), Fault> {
        line.value(self.start)?;
        line.value(self.len)
    }
}

/// box_size BYTES REMAINING
pub fn box_size(case: &mut Case<'_>, line: &mut Line) -> Result<(), Fault> {
    let Bytes(bytes) = case.take()?;
    let remaining = case.take()?;
    case.end()?;
    line.answer(boxes::box_size(bytes.as_slice(), remaining))
}

/// children BYTES AT
pub fn children(case: &mut Case<'_>, line: &mut Line) -> Result<(), Fault> {
    let Bytes(bytes) = case.take()?;
    let at = case.take()?;
    case.end()?;
    line.answer(boxes::children(bytes.as_slice(), at))
}

// The part of the bytes at a place, none on a refusal.
fn part_at(bytes: &[u8], place: Result<Place, Refusal>) -> Option<&[u8]> {
    match place {
        Ok(Place { start, len }) => bytes.get(start..)?.get(..len),
        Err(_) => Some(&[]),
    }
}

// A place, at which the part of the bytes is to lie that the call's twin answers.
fn say_place(
    line: &mut Line,
    bytes: &[u8],
    place: Result<Place, Refusal>,
    part: &[u8],
) -> Result<(), Fault> {
    line.held_to(part_at(bytes, place) == Some(part));
    line.answer(place)
}

/// child BYTES KIND
pub fn child(case: &mut Case<'_>, line: &mut Line) -> Result<(), Fault> {
    let Bytes(bytes) = case.take()?;
    let kind = case.take()?;
    case.end()?;
    let bytes = bytes.as_slice();
    let place = boxes::child_place(bytes, kind);
    say_place(line, bytes, place, boxes::child(bytes, kind))
}

/// find_box BYTES FROM TO KIND TEXT_TYPES
pub fn find_box(case: &mut Case<'_>, line: &mut Line) -> Result<(), Fault> {
    let Bytes(bytes) = case.take()?;
    let from = case.take()?;
    let to = case.take()?;
    let kind = case.take()?;
    let text_types = case.take()?;
    case.end()?;
    let bytes = bytes.as_slice();
    let place = boxes::find_box_place(bytes, from, to, kind, text_types);
    let part = boxes::find_box(bytes, from, to, kind, text_types);
    say_place(line, bytes, place, part)
}

/// table_text BYTES
pub fn table_text(case: &mut Case<'_>, line: &mut Line) -> Result<(), Fault> {
    let Bytes(bytes) = case.take()?;
    case.end()?;
    let bytes = bytes.as_slice();
    let place = boxes::table_text_place(bytes);
    say_place(line, bytes, place, boxes::table_text(bytes))
}
