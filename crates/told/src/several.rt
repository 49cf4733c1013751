//! Answers of several words, told as `tell` tells one: on a refusal the words are left alone.
ghost use Rattle.std.specs.Prelude.{◌≡◌};
ghost use Rattle.told.specs.Told.{told, size_words, box_words, place_words, origin_words, times_words};

use crate::{accepted, refused};
use boxes::{BoxAt, BoxSize, Place};
use refusal::Refusal;
use rows::Origin;
use ticks::FrameTimes;

/// Tells a box's size and its header's, in bytes.
pub fn tell_size(
    answer: Result<BoxSize, Refusal>,
    size: &mut u64,
    header: &mut u64,
    index: &mut u64,
) -> u64
    ensures { (result, (size.new, header.new), index.new)
        ≡ told size_words answer (size.old, header.old) }
{
    match answer {
        Ok(found) => {
            *size = found.size;
            *header = found.header;
            accepted(index)
        }
        Err(refusal) => refused(refusal, index),
    }
}

/// Tells a box's type, where its payload starts and how long that is, and where the next box is, in
/// bytes.
pub fn tell_box(
    answer: Result<BoxAt, Refusal>,
    kind: &mut u32,
    start: &mut u64,
    length: &mut u64,
    next: &mut u64,
    index: &mut u64,
) -> u64
    ensures { (result, (kind.new, start.new, length.new, next.new), index.new)
        ≡ told box_words answer (kind.old, start.old, length.old, next.old) }
{
    match answer {
        Ok(found) => {
            *kind = found.kind;
            *start = found.start as u64;
            *length = found.len as u64;
            *next = found.next as u64;
            accepted(index)
        }
        Err(refusal) => refused(refusal, index),
    }
}

/// Tells where a part of the caller's bytes starts, and how long it is.
pub fn tell_place(
    answer: Result<Place, Refusal>,
    start: &mut u64,
    length: &mut u64,
    index: &mut u64,
) -> u64
    ensures { (result, (start.new, length.new), index.new)
        ≡ told place_words answer (start.old, length.old) }
{
    match answer {
        Ok(place) => {
            *start = place.start as u64;
            *length = place.len as u64;
            accepted(index)
        }
        Err(refusal) => refused(refusal, index),
    }
}

/// Tells where a frame comes from: its source, its frame there, the shift's flag (1 present, 0
/// absent) and the shift.
pub fn tell_origin(
    answer: Result<Origin, Refusal>,
    source: &mut u64,
    source_frame: &mut u64,
    flag: &mut u64,
    shift: &mut i64,
    index: &mut u64,
) -> u64
    ensures { (result, (source.new, source_frame.new, flag.new, shift.new), index.new)
        ≡ told origin_words answer (source.old, source_frame.old, flag.old, shift.old) }
{
    match answer {
        Ok(origin) => {
            *source = origin.source;
            *source_frame = origin.frame;
            *flag = origin.flag;
            *shift = origin.shift;
            accepted(index)
        }
        Err(refusal) => refused(refusal, index),
    }
}

/// Tells how many frames there are and, in ticks of `scale` a second, the nominal duration and the
/// end.
pub fn tell_times(
    answer: Result<FrameTimes, Refusal>,
    frames: &mut u64,
    scale: &mut u64,
    nominal: &mut i64,
    end: &mut i64,
    index: &mut u64,
) -> u64
    ensures { (result, (frames.new, scale.new, nominal.new, end.new), index.new)
        ≡ told times_words answer (frames.old, scale.old, nominal.old, end.old) }
{
    match answer {
        Ok(times) => {
            *frames = times.frames as u64;
            *scale = times.scale;
            *nominal = times.nominal;
            *end = times.end;
            accepted(index)
        }
        Err(refusal) => refused(refusal, index),
    }
}
