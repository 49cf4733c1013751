//! Which segment of a lent table has a frame, which presents a time, and whether one continues the
//! one before it: as methods of a table in any layout, and as calls on words. The table is checked
//! first. RULES 4.1 to 4.3, 4.5.
#![tactic(auto)]

ghost use Rattle.std.specs.Prelude.{◌≡◌, ◌+◌, ◌≤◌, Ok};
ghost use Rattle.conditions.specs.Conditions.{max_u64};
ghost use Rattle.rules.specs.Lookups.{ended, over_by, over_by_us, segment_of_frame, segment_of_time, same_shift, segment_runs_on, continues_at};
ghost use Rattle.table.specs.Layout.{table_of};
ghost use Rattle.lookup.specs.Examples.{WorkedExamples};

use refusal::Refusal;
use rows::halving;
use rules::Segment;
use table::layout::Segments;
use table::{Accepted, SegmentTable, Tabled};

// Whether two shifts are equal; both absent counts as equal.
fn same_shift(flag: u64, shift: i64, other: u64, second: i64) -> bool
    ensures { result ≡ same_shift flag shift other second }
{
    (flag == other) & ((flag == 0) | (shift == second))
}

// Whether a segment continues the previous one.
fn runs_on(previous: Segment, segment: Segment) -> bool
    requires { previous.words.first + previous.words.count ≤ max_u64 }
    ensures { result ≡ segment_runs_on previous segment }
{
    let shifts = same_shift(
        previous.words.flag,
        previous.stamps.shift,
        segment.words.flag,
        segment.stamps.shift,
    );
    ((previous.words.source == segment.words.source)
        & (previous.words.first + previous.words.count == segment.words.first))
        & shifts
}

/// What is looked up in a table that is accepted: nothing is checked again, nothing is refused.
pub trait Searches: Tabled {
    /// The segment that has an output frame; past the last frame, the last segment (RULES 4.2).
    fn segment_of_frame(&self, frame: u64) -> usize
        ensures { result ≡ ended (over_by frame) (Self.table self.now).segments };

    /// The segment that presents an output time in microseconds: before the first one's, the first;
    /// past the last, the last (RULES 4.3).
    fn segment_of_time_us(&self, time: i64) -> usize
        ensures { result ≡ ended (over_by_us time) (Self.table self.now).segments };

    /// Whether segment `number` continues the one before it in their source, with the same shift
    /// (RULES 4.5). The first doesn't, and none past the last.
    fn continues(&self, number: usize) -> bool
        ensures { continues_at (Self.table self.now) number ≡ Ok result };
}

// Each segment begins where the one before it ends, so one word says which have ended.
impl<S: Segments> Searches for Accepted<'_, '_, S> {
    fn segment_of_frame(&self, frame: u64) -> usize {
        halving::last_that(self.segment_count(), |k| self.segment(k).words.out <= frame)
    }

    fn segment_of_time_us(&self, time: i64) -> usize {
        halving::last_that(self.segment_count(), |k| {
            self.segment(k).stamps.out_start <= time
        })
    }

    #[tactic(auto, using(crate::proofs::Found::source_sum), unfolding(rules::specs::Lookups::continues_at))]
    fn continues(&self, number: usize) -> bool {
        if number < 1 {
            return false;
        }
        if number >= self.segment_count() {
            return false;
        }
        runs_on(self.segment(number - 1), self.segment(number))
    }
}

/// What is looked up in a table, which is checked first: refused as by `SegmentTable::check`, or what
/// `Searches` answers.
pub trait Lookups: Tabled {
    /// The segment that has an output frame (RULES 4.2).
    fn segment_of_frame(&self, frame: u64) -> Result<usize, Refusal>
        ensures { result ≡ segment_of_frame (Self.table self.now) frame };

    /// The segment that presents an output time in microseconds (RULES 4.3).
    fn segment_of_time_us(&self, time: i64) -> Result<usize, Refusal>
        ensures { result ≡ segment_of_time (Self.table self.now) time };

    /// Whether a segment continues the one before it (RULES 4.5).
    fn continues(&self, number: usize) -> Result<bool, Refusal>
        ensures { result ≡ continues_at (Self.table self.now) number };
}

#[tactic(auto, unfolding(rules::specs::Lookups::segment_of_frame, rules::specs::Lookups::segment_of_time, rules::specs::Lookups::continues_at))]
impl<S: Segments> Lookups for SegmentTable<'_, S> {
    fn segment_of_frame(&self, frame: u64) -> Result<usize, Refusal> {
        Ok(self.accepted()?.segment_of_frame(frame))
    }

    fn segment_of_time_us(&self, time: i64) -> Result<usize, Refusal> {
        Ok(self.accepted()?.segment_of_time_us(time))
    }

    fn continues(&self, number: usize) -> Result<bool, Refusal> {
        Ok(self.accepted()?.continues(number))
    }
}

/// `Lookups::segment_of_frame` of a table that is lent as words.
pub fn segment_of_frame(
    sources: &[u64],
    words: &[u64],
    stamps: &[i64],
    log: bool,
    text: &[u8],
    frame: u64,
) -> Result<usize, Refusal>
    ensures { result ≡
        segment_of_frame (table_of sources.now words.now stamps.now log text.now) frame }
{
    SegmentTable::of_words(sources, words, stamps, log, text).segment_of_frame(frame)
}

/// `Lookups::segment_of_time_us` of a table that is lent as words.
pub fn segment_of_time_us(
    sources: &[u64],
    words: &[u64],
    stamps: &[i64],
    log: bool,
    text: &[u8],
    time: i64,
) -> Result<usize, Refusal>
    ensures { result ≡
        segment_of_time (table_of sources.now words.now stamps.now log text.now) time }
{
    SegmentTable::of_words(sources, words, stamps, log, text).segment_of_time_us(time)
}

/// `Lookups::continues` of a table that is lent as words.
pub fn continues(
    sources: &[u64],
    words: &[u64],
    stamps: &[i64],
    log: bool,
    text: &[u8],
    number: usize,
) -> Result<bool, Refusal>
    ensures { result ≡
        continues_at (table_of sources.now words.now stamps.now log text.now) number }
{
    SegmentTable::of_words(sources, words, stamps, log, text).continues(number)
}

/// The definitions give the numbers of specs/Examples.antt.
pub fn worked_examples_hold()
    ensures { WorkedExamples }
{}
