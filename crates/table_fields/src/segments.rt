//! A segment of a table's text.
ghost use Rattle.std.specs.Prelude.{◌≡◌, ◌≤◌, ◌&&◌, length};
ghost use Rattle.json_tokens.specs.Text.{most_text};
ghost use Rattle.table_fields.specs.Typed.{three, words_by, stamps_from, stamps_by};
ghost use Rattle.table_fields.specs.Found.{text_by, object_or_null_by, u64_by, i64_by, shift_at, shift_by, places_at, segment_at};

use crate::members::{i64_by, is_null, object_or_null_by, text_by, u64_by};
use json_fields::{i64_at, places};
use rules::{Segment, Stamps, Words};

// Its members: of its words, of its stamps, of how it came to be, of its shift.
const MEMBERS: [&[u8]; 15] = [
    b"source",
    b"src_first_frame",
    b"frame_count",
    b"out_first_frame",
    b"src_start_us",
    b"out_start_us",
    b"duration_us",
    b"src_capture_start_us",
    b"out_capture_start_us",
    b"capture_duration_us",
    b"requested",
    b"start",
    b"entry",
    b"end",
    b"clock_shift",
];

// Where their values stand.
#[derive(Clone, Copy)]
struct Places {
    source: Option<usize>,
    first: Option<usize>,
    count: Option<usize>,
    out: Option<usize>,
    source_start: Option<usize>,
    out_start: Option<usize>,
    duration: Option<usize>,
    source_capture_start: Option<usize>,
    out_capture_start: Option<usize>,
    capture_duration: Option<usize>,
    requested: Option<usize>,
    start: Option<usize>,
    entry: Option<usize>,
    end: Option<usize>,
    clock_shift: Option<usize>,
}

fn places_at(text: &[u8], at: usize, left: usize) -> Places
    requires { length text.now ≤ most_text }
    ensures { result ≡ places_at left text.now at }
{
    let [
        source,
        first,
        count,
        out,
        source_start,
        out_start,
        duration,
        source_capture_start,
        out_capture_start,
        capture_duration,
        requested,
        start,
        entry,
        end,
        clock_shift,
    ] = places::<15>(text, at, left, &MEMBERS);
    Places {
        source,
        first,
        count,
        out,
        source_start,
        out_start,
        duration,
        source_capture_start,
        out_capture_start,
        capture_duration,
        requested,
        start,
        entry,
        end,
        clock_shift,
    }
}

/// Whether a segment has a shift (0, 1), and the shift in ticks of its source's clock; an absent one
/// is 0.
#[derive(Clone, Copy)]
pub struct Shift {
    /// 1 where there is a shift, else 0.
    pub flag: u64,
    /// The shift.
    pub shift: i64,
}

#[tactic(auto, unfolding(crate::specs::Found::shift_at))]
fn shift_at(text: &[u8], at: usize) -> Option<Shift>
    requires { length text.now ≤ most_text }
    ensures { result ≡ shift_at text.now at }
{
    if is_null(text, at) {
        return Some(Shift { flag: 0, shift: 0 });
    }
    let shift = i64_at(text, at)?;
    Some(Shift { flag: 1, shift })
}

fn shift_by(text: &[u8], place: Option<usize>) -> Option<Shift>
    requires { length text.now ≤ most_text }
    ensures { result ≡ shift_by text.now place }
{
    shift_at(text, place?)
}

#[tactic(auto, unfolding(crate::specs::Typed::words_by))]
fn words_by(text: &[u8], places: &Places, flag: u64) -> Option<Words>
    requires { length text.now ≤ most_text }
    ensures { result ≡ words_by (u64_by text.now places.now.source) (u64_by text.now places.now.first)
        (u64_by text.now places.now.count) (u64_by text.now places.now.out) flag }
{
    Some(Words {
        source: u64_by(text, places.source)?,
        first: u64_by(text, places.first)?,
        count: u64_by(text, places.count)?,
        out: u64_by(text, places.out)?,
        flag,
    })
}

#[tactic(auto, unfolding(crate::specs::Typed::three))]
fn three_by(
    text: &[u8],
    a: Option<usize>,
    b: Option<usize>,
    c: Option<usize>,
) -> Option<(i64, i64, i64)>
    requires { length text.now ≤ most_text }
    ensures { result ≡ three (i64_by text.now a) (i64_by text.now b) (i64_by text.now c) }
{
    Some((i64_by(text, a)?, i64_by(text, b)?, i64_by(text, c)?))
}

fn stamps_from(times: (i64, i64, i64), captures: (i64, i64, i64), shift: i64) -> Stamps
    ensures { result ≡ stamps_from times captures shift }
{
    Stamps {
        source_start: times.0,
        out_start: times.1,
        duration: times.2,
        source_capture_start: captures.0,
        out_capture_start: captures.1,
        capture_duration: captures.2,
        shift,
    }
}

#[tactic(auto, unfolding(crate::specs::Typed::stamps_by))]
fn stamps_by(text: &[u8], places: &Places, shift: i64) -> Option<Stamps>
    requires { length text.now ≤ most_text }
    ensures { result ≡ stamps_by
        (three (i64_by text.now places.now.source_start) (i64_by text.now places.now.out_start)
        (i64_by text.now places.now.duration))
        (three (i64_by text.now places.now.source_capture_start)
        (i64_by text.now places.now.out_capture_start)
        (i64_by text.now places.now.capture_duration))
        shift }
{
    let times = three_by(text, places.source_start, places.out_start, places.duration)?;
    let captures = three_by(
        text,
        places.source_capture_start,
        places.out_capture_start,
        places.capture_duration,
    )?;
    Some(stamps_from(times, captures, shift))
}

// Whether the members that say how a segment came to be are there.
fn is_told(text: &[u8], places: &Places) -> bool
    ensures { result ≡ (object_or_null_by text.now places.now.requested
        && (text_by text.now places.now.start
        && (text_by text.now places.now.entry && text_by text.now places.now.end))) }
{
    object_or_null_by(text, places.requested)
        && (text_by(text, places.start)
            && (text_by(text, places.entry) && text_by(text, places.end)))
}

/// The segment at an offset, in whose members so many lists and objects may stand one in the other.
#[tactic(auto, unfolding(crate::specs::Typed::segment_of, crate::specs::Typed::told_by))]
pub fn segment_at(text: &[u8], at: usize, left: usize) -> Option<Segment>
    requires { length text.now ≤ most_text }
    ensures { result ≡ segment_at left text.now at }
{
    let places = places_at(text, at, left);
    if !is_told(text, &places) {
        return None;
    }
    let shift = shift_by(text, places.clock_shift)?;
    let words = words_by(text, &places, shift.flag)?;
    let stamps = stamps_by(text, &places, shift.shift)?;
    Some(Segment { words, stamps })
}
