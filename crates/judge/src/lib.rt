//! A table against its video, and against a MotionCam recording (RULES 6): as methods of a table in
//! any layout, and as calls on words.
#![tactic(auto)]

ghost use Rattle.std.specs.Prelude.{◌≡◌, List, ◌<◌, length, ℤ, ◌+ℤ◌, ◌↔◌, ℕ, Ok};
ghost use Rattle.refusal.specs.Refusals.{first_refused};
ghost use Rattle.signed.specs.Fits.{I64};
ghost use Rattle.rules.specs.Records.{Table, segment, frame_total};
ghost use Rattle.rules.specs.Grounds.{Rightly};
ghost use Rattle.table.specs.Layout.{table_of};
ghost use Rattle.judge.specs.declared.Video.{Video};
ghost use Rattle.judge.specs.Video.{Shown, constant, timed, shown_by};
ghost use Rattle.judge.specs.Judge.{starts_at, start_refusal, timeline_refusal, video_refusal, validate_of, single, recoded, recording_refusal, check_mcraw, Settled};
ghost use Rattle.judge.specs.Means.{Fits, Recorded};
ghost use Rattle.judge.specs.Grounds.{validate_tests, mcraw_tests};
ghost use Rattle.judge.specs.Examples.{WorkedExamples};

mod timeline;

use refusal::{Reason, Refusal};
use rules::Stamps;
use table::layout::Segments;
use table::{Accepted, SegmentTable, Tabled};
use timeline::{Constant, Timed, Timeline};

/// The most starts (RULES 11).
pub const MOST_STARTS: usize = 16_777_216;

/// The video that a table is judged by (RULES 6.1). The Rust's VideoFrames.
#[derive(Clone, Copy, Debug, PartialEq)]
pub enum Video {
    /// None.
    Nothing,
    /// Frames at numerator / denominator a second.
    Constant {
        frames: u64,
        numerator: u64,
        denominator: u64,
    },
    /// Frames whose starts are lent beside it: in ticks, of which there are `scale` a second, as are
    /// the end of the last frame and how long a frame is as a rule.
    Times {
        scale: u64,
        end: i64,
        nominal: i64,
    },
}

// Whether a segment starts in the output when its first frame is shown: else that frame has no time
// (23), or another (24).
#[tactic(auto, unfolding(crate::specs::Judge::starts_at))]
fn starts_at(frame_time: Option<i64>, out_start: i64) -> Result<(), Reason>
    ensures { result ≡ starts_at frame_time out_start }
{
    let Some(time) = frame_time else {
        return Err(Reason::NoFrameTime);
    };
    if time != out_start {
        return Err(Reason::OtherFrameTime);
    }
    Ok(())
}

// The same of segment k.
#[tactic(auto, unfolding(crate::specs::Judge::start_refusal))]
fn start_refusal_at<S: Segments, V: Timeline>(
    accepted: &Accepted<'_, '_, S>,
    k: usize,
    video: &V,
) -> Result<(), Reason>
    requires { k < length accepted.now.table.now.segments }
    ensures { result ≡ start_refusal (V.shown video.now) (segment accepted.now.table.now k) }
{
    let segment = accepted.segment(k);
    starts_at(video.time_us(segment.words.out), segment.stamps.out_start)
}

// What the first segment that doesn't start with its frame is refused for (23, 24).
#[tactic(auto, using(table::proofs::Checks::loops))]
fn first_start<S: Segments, V: Timeline>(
    accepted: &Accepted<'_, '_, S>,
    video: &V,
) -> Result<(), Refusal>
    ensures { result ≡
        first_refused (start_refusal (V.shown video.now)) 0 accepted.now.table.now.segments }
{
    let count = accepted.segment_count();
    for k in 0..count {
        if let Err(reason) = start_refusal_at(accepted, k, video) {
            return Err(reason.at(k));
        }
    }
    Ok(())
}

// Where a segment ends in the output.
fn end_us(stamps: Stamps) -> i64
    requires { I64 (stamps.out_start +ℤ stamps.duration) }
    ensures { result ≡ stamps.out_start +ℤ stamps.duration }
{
    stamps.out_start + stamps.duration
}

// What refuses an accepted table by a video within its limits: another frame count (22), a segment
// that doesn't start with its frame (23, 24), an end that isn't near (25).
#[tactic(auto, using(crate::proofs::Ready::ready))]
fn timeline_refusal<S: Segments, V: Timeline>(
    accepted: &Accepted<'_, '_, S>,
    video: &V,
) -> Result<(), Refusal>
    ensures { result ≡ timeline_refusal accepted.now.table.now.segments (V.shown video.now) }
{
    let last = accepted.segment_count() - 1;
    if accepted.frames != video.frame_count() {
        return Err(Reason::OtherFrameCount.at(0));
    }
    first_start(accepted, video)?;
    if !video.is_near(end_us(accepted.segment(last).stamps)) {
        return Err(Reason::EndNotNear.at(0));
    }
    Ok(())
}

// The same by a video of so many frames at a constant rate, whose numbers may be too large (20).
#[tactic(auto, unfolding(crate::specs::Judge::video_refusal))]
fn constant_refusal<S: Segments>(
    accepted: &Accepted<'_, '_, S>,
    frames: u64,
    numerator: u64,
    denominator: u64,
) -> Result<(), Refusal>
    ensures { result ≡ video_refusal accepted.now.table.now.segments
        (constant frames numerator denominator) }
{
    if (ticks::LARGEST_SCALE < numerator) | (ticks::LARGEST_SCALE < denominator) {
        return Err(Reason::TooLarge.at(0));
    }
    let video = Constant {
        frames,
        numerator,
        denominator,
    };
    timeline_refusal(accepted, &video)
}

// The same by a video of times in ticks, of which the scale or the starts may be too large (20).
#[tactic(auto, unfolding(crate::specs::Judge::video_refusal))]
fn timed_refusal<S: Segments>(
    accepted: &Accepted<'_, '_, S>,
    starts: &[i64],
    scale: u64,
    end: i64,
    nominal: i64,
) -> Result<(), Refusal>
    ensures { result ≡ video_refusal accepted.now.table.now.segments
        (timed starts.now scale end nominal) }
{
    if (ticks::LARGEST_SCALE < scale) | (MOST_STARTS < starts.len()) {
        return Err(Reason::TooLarge.at(0));
    }
    let video = Timed {
        starts,
        scale,
        end,
        nominal,
    };
    timeline_refusal(accepted, &video)
}

// The same by the video that is lent, or for want of one (21).
#[tactic(auto, unfolding(crate::specs::Video::shown_by, crate::specs::Judge::video_refusal))]
fn video_refusal<S: Segments>(
    accepted: &Accepted<'_, '_, S>,
    video: Video,
    starts: &[i64],
) -> Result<(), Refusal>
    ensures { result ≡
        video_refusal accepted.now.table.now.segments (shown_by video starts.now) }
{
    match video {
        Video::Nothing => Err(Reason::NoVideo.at(0)),
        Video::Constant {
            frames,
            numerator,
            denominator,
        } => constant_refusal(accepted, frames, numerator, denominator),
        Video::Times {
            scale,
            end,
            nominal,
        } => timed_refusal(accepted, starts, scale, end, nominal),
    }
}

// The same by a recording of one frame, at the rate of segment 0's source.
#[tactic(auto, using(crate::proofs::Ready::ready), unfolding(crate::specs::Judge::single))]
fn single_refusal<S: Segments>(accepted: &Accepted<'_, '_, S>) -> Result<(), Refusal>
    ensures { result ≡ video_refusal accepted.now.table.now.segments
        (single accepted.now.table.now.sources accepted.now.table.now.segments) }
{
    let k = accepted.segment(0).words.source as usize;
    let source = accepted.table.source(k);
    constant_refusal(accepted, 1, source.numerator, source.denominator)
}

// Of a recording, no times to be had (31) is told as `NoRecordingTimes` (35); any other reason as it
// is.
#[tactic(auto, unfolding(crate::specs::Judge::recoded))]
fn recode(reason: Reason) -> Reason
    ensures { result ≡ recoded reason }
{
    match reason {
        Reason::Missing => Reason::NoRecordingTimes,
        other => other,
    }
}

// What refuses an accepted table by a recording: its own times (30 to 35), or the video that they
// are (20 to 25). The working slices are left as they happen to be.
#[tactic(auto, unfolding(crate::specs::Judge::recording_refusal, crate::specs::Judge::times_refusal))]
fn recording_refusal<S: Segments>(
    accepted: &Accepted<'_, '_, S>,
    timestamps: &[i64],
    first_work: &mut [i64],
    second_work: &mut [i64],
) -> Result<(), Refusal>
    ensures { result ≡
        recording_refusal accepted.now.table.now.sources accepted.now.table.now.segments
        timestamps.now (length first_work.old) (length second_work.old) }
{
    if timestamps.len() == 1 {
        return single_refusal(accepted);
    }
    let answer = mcraw::mcraw_times(timestamps, first_work, second_work);
    let times = answer.map_err(|refusal| recode(refusal.reason).at(refusal.index))?;
    let starts = &first_work[..times.frames];
    timed_refusal(accepted, starts, times.scale, times.end, times.nominal)
}

// Judges a table by a recording, and leaves the working slices as they happen to be.
#[tactic(auto, unfolding(crate::specs::Judge::check_mcraw, rules::specs::Rules::check_of))]
fn judge_recording<S: Segments>(
    table: &SegmentTable<'_, S>,
    timestamps: &[i64],
    first_work: &mut [i64],
    second_work: &mut [i64],
) -> Result<u64, Refusal>
    ensures { result ≡
        check_mcraw table.now timestamps.now (length first_work.old) (length second_work.old) }
{
    let accepted = table.accepted()?;
    recording_refusal(&accepted, timestamps, first_work, second_work)?;
    Ok(accepted.frames)
}

/// What judges a table, which is checked first: its frame total, or why it is refused.
pub trait Judging: Tabled {
    /// By the video of its file (RULES 6.2). The starts of `Video::Times` are lent beside it. Refuses
    /// as the check, then by `NoVideo` (21), `TooLarge` (20), `OtherFrameCount` (22), `NoFrameTime`
    /// (23), `OtherFrameTime` (24) and `EndNotNear` (25).
    fn validate(&self, video: Video, starts: &[i64]) -> Result<u64, Refusal>
        ensures { result ≡ validate_of (Self.table self.now) (shown_by video starts.now) };

    /// By the timestamps of a MotionCam recording's frames, in nanoseconds (RULES 6.3). Several need
    /// room for as many in both working slices (else `NoRoom`, 32), which are all zero afterwards.
    /// Refuses as the check, then by `TooLong` (30), `NoRecordingTimes` (35), `Falling` (34),
    /// `Outside` (33), and as `validate`.
    fn check_mcraw(
        &self,
        timestamps: &[i64],
        first_work: &mut [i64],
        second_work: &mut [i64],
    ) -> Result<u64, Refusal>
        ensures { Settled (Self.table self.now) timestamps.now
            first_work.old second_work.old result first_work.new second_work.new };
}

#[tactic(auto, unfolding(crate::specs::Judge::validate_of, rules::specs::Rules::check_of))]
impl<S: Segments> Judging for SegmentTable<'_, S> {
    fn validate(&self, video: Video, starts: &[i64]) -> Result<u64, Refusal> {
        let accepted = self.accepted()?;
        video_refusal(&accepted, video, starts)?;
        Ok(accepted.frames)
    }

    fn check_mcraw(
        &self,
        timestamps: &[i64],
        first_work: &mut [i64],
        second_work: &mut [i64],
    ) -> Result<u64, Refusal> {
        let answer = judge_recording(self, timestamps, first_work, second_work);
        slices::clear(first_work);
        slices::clear(second_work);
        answer
    }
}

/// `Judging::validate` of a table that is lent as words.
pub fn validate(
    sources: &[u64],
    words: &[u64],
    stamps: &[i64],
    log: bool,
    text: &[u8],
    video: Video,
    starts: &[i64],
) -> Result<u64, Refusal>
    ensures { result ≡
        validate_of (table_of sources.now words.now stamps.now log text.now)
        (shown_by video starts.now) }
{
    SegmentTable::of_words(sources, words, stamps, log, text).validate(video, starts)
}

/// `Judging::check_mcraw` of a table that is lent as words.
pub fn check_mcraw(
    sources: &[u64],
    words: &[u64],
    stamps: &[i64],
    log: bool,
    text: &[u8],
    timestamps: &[i64],
    first_work: &mut [i64],
    second_work: &mut [i64],
) -> Result<u64, Refusal>
    ensures { Settled (table_of sources.now words.now stamps.now log text.now) timestamps.now
        first_work.old second_work.old result first_work.new second_work.new }
{
    SegmentTable::of_words(sources, words, stamps, log, text).check_mcraw(
        timestamps,
        first_work,
        second_work,
    )
}

/// A table that is judged by its video is refused with the first condition that holds, and accepted
/// where none does.
#[tactic(auto, using(crate::proofs::Exact::validated_rightly))]
pub fn refusals_by_video_are_right()
    ensures { (table : Table) (video : Video) (starts : List ℤ) →
        Rightly (validate_of table (shown_by video starts))
        (validate_tests table video starts) (frame_total table.segments) }
{}

/// The same of a table that is judged by its recording.
#[tactic(auto, using(crate::proofs::Exact::recorded_rightly))]
pub fn refusals_by_recording_are_right()
    ensures { (table : Table) (timestamps : List ℤ) (first_room second_room : ℕ) →
        Rightly (check_mcraw table timestamps first_room second_room)
        (mcraw_tests table timestamps first_room second_room) (frame_total table.segments) }
{}

/// A table is accepted for a video, with the video's frames, exactly where it fits it.
pub fn accepted_tables_fit_their_video()
    ensures { (table : Table) (shown : Shown) (total : ℕ) →
        (validate_of table shown ≡ Ok total) ↔ Fits table shown total }
{}

/// The same of a recording.
pub fn accepted_tables_fit_their_recording()
    ensures { (table : Table) (timestamps : List ℤ) (first_room second_room total : ℕ) →
        (check_mcraw table timestamps first_room second_room ≡ Ok total)
        ↔ Recorded table timestamps first_room second_room total }
{}

/// The definitions give the numbers of specs/Examples.antt.
pub fn worked_examples_hold()
    ensures { WorkedExamples }
{}
