//! A layout of a table's segments: a list of records, lent as a slice of structs; and the frame
//! lookup over it. RULES 1.6.
#![tactic(auto)]

ghost use Rattle.std.specs.Prelude.{◌≡◌, false, map, if◌then◌else◌};
ghost use Rattle.table.specs.Layout.{table_of};
ghost use Rattle.records.specs.Records.{all_unsigned, all_signed, locate};
ghost use Rattle.records.specs.Segments.{segment_of};

use lookup::Lookups;
use refusal::Refusal;
use rules::{Segment, Stamps, Words};
use table::SegmentTable;
use table::layout::Segments;
use table::sources::Sources;
use table_rows::RowWords;

/// A segment as one record, with its times in microseconds: the Rust's TrimSegment.
#[repr(C)]
#[derive(Clone, Copy, Debug, PartialEq)]
pub struct TrimSegment {
    /// The source's number.
    pub source: u64,
    /// Its first frame in the source.
    pub src_first_frame: u64,
    /// How many frames it has.
    pub frame_count: u64,
    /// Its first frame in the output.
    pub out_first_frame: u64,
    /// Where it starts in the source.
    pub src_start_us: i64,
    /// Where it starts in the output.
    pub out_start_us: i64,
    /// How long it is.
    pub duration_us: i64,
    /// Where its capture starts in the source.
    pub src_capture_start_us: i64,
    /// Where its capture starts in the output.
    pub out_capture_start_us: i64,
    /// How long its capture is.
    pub capture_duration_us: i64,
    /// Whether it has a shift.
    pub shift_present: bool,
    /// The shift, ignored where there is none.
    pub clock_shift: i64,
}

// A record's shift flag as a word.
fn flag_of(present: bool) -> u64
    ensures { result ≡ (if present then 1 else 0) }
{
    if present { 1 } else { 0 }
}

// The segment that a record is.
fn segment_of(trim: TrimSegment) -> Segment
    ensures { result ≡ segment_of trim }
{
    Segment {
        words: Words {
            source: trim.source,
            first: trim.src_first_frame,
            count: trim.frame_count,
            out: trim.out_first_frame,
            flag: flag_of(trim.shift_present),
        },
        stamps: Stamps {
            source_start: trim.src_start_us,
            out_start: trim.out_start_us,
            duration: trim.duration_us,
            source_capture_start: trim.src_capture_start_us,
            out_capture_start: trim.out_capture_start_us,
            capture_duration: trim.capture_duration_us,
            shift: trim.clock_shift,
        },
    }
}

/// Records, one a segment: a layout of a table's segments, of any length.
#[derive(Clone, Copy, Debug, PartialEq)]
pub struct Records<'a> {
    /// The records, in the order of the segments.
    pub all: &'a [TrimSegment],
}

impl Segments for Records<'_> {
    ghost uneven = { λ _. false };

    ghost listed = { λ records. map segment_of records.all.now };

    fn is_uneven(&self) -> bool {
        false
    }

    fn count(&self) -> usize {
        self.all.len()
    }

    fn segment(&self, k: usize) -> Segment {
        segment_of(self.all[k])
    }
}

// Its rows' words are written row by row.
impl RowWords for Records<'_> {}

/// A table whose segments are lent as records: it is the table of their words. Sources are thirteen
/// words each (RULES 1.2), `text` has the bytes of creation times, `log` says whether the table
/// names a telemetry log.
#[tactic(auto, using(crate::proofs::Laid::words_are))]
pub fn of_records<'a>(
    sources: &'a [u64],
    records: &'a [TrimSegment],
    log: bool,
    text: &'a [u8],
) -> SegmentTable<'a, Records<'a>>
    ensures { result ≡
        table_of sources.now (all_unsigned records.now) (all_signed records.now) log text.now }
{
    SegmentTable {
        sources: Sources { words: sources },
        segments: Records { all: records },
        text,
        log,
    }
}

/// The number of the segment that has a frame; past the last frame, the last segment's. The table
/// is checked first: refuses 1 to 17, as `check` does (RULES 3), at their index. RULES 1.6, 4.2.
#[tactic(auto, unfolding(crate::specs::Records::locate))]
pub fn segment_of_frame_records(
    sources: &[u64],
    text: &[u8],
    records: &[TrimSegment],
    log: bool,
    frame: u64,
) -> Result<usize, Refusal>
    ensures { result ≡ locate sources.now text.now records.now log frame }
{
    of_records(sources, records, log, text).segment_of_frame(frame)
}
