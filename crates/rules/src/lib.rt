//! Refusals 1 to 17, by RULES 3, over records: nothing here knows how a table is lent. The Rust's
//! `SegmentTable::check`.
#![tactic(auto)]

ghost use Rattle.std.specs.Prelude.{◌≡◌, true, false, not, ◌||◌, ◌↔◌, ◌≤◌, Ok, unsigned_abs};
ghost use Rattle.rules.specs.Limits.{max_i64};
ghost use Rattle.rules.specs.Records.{Table, frame_total};
ghost use Rattle.rules.specs.Rules.{bad_source, zero_in_source, bad_date, bad_clock, source_refusal, negative, stamp_times, too_late, apart, bad_shift, over_limit, frames_or, times_or, judged, start, ends, check_of};
ghost use Rattle.rules.specs.Grounds.{tests, Rightly};
ghost use Rattle.rules.specs.Walks.{turned, FineFrames, FineShift, out_of_time, Passing, EndFits};

use refusal::Reason;

// The most sources (RULES 11).
const MAX_SOURCES: usize = 256;

/// The most segments (RULES 11).
pub const MAX_SEGMENTS: usize = 512;

// The largest i64.
const MAX_I64: u64 = 0x7fff_ffff_ffff_ffff;

/// A source of the table, RULES 1.2; the Rust's TableSource.
#[derive(Clone, Copy, Debug, PartialEq)]
pub struct Source {
    /// Its frames.
    pub frames: u64,
    /// Its frames a second: the numerator of fps.
    pub numerator: u64,
    /// The denominator of fps.
    pub denominator: u64,
    /// Whether it has a creation time (0, 1): creation_time.
    pub dated: u64,
    /// That time's offset in the lent text.
    pub from: u64,
    /// Its length there, in bytes.
    pub size: u64,
    /// Its clock's kind: 0 none, 1 no modulus, 2 modulus.
    pub kind: u64,
    /// Its clock's rate: the numerator of clock.rate.
    pub ticks: u64,
    /// The denominator of clock.rate.
    pub per: u64,
    /// Its clock's modulus: clock.modulus.
    pub modulus: u64,
    /// Its file's size, in bytes: size. No answer rests on it.
    pub file_size: u64,
    /// Whether the origin of its IMU's clock is known (0, 1): whether zcam_imu_origin_us is.
    pub imu_known: u64,
    /// That origin, in microseconds. No answer rests on it.
    pub imu_origin: u64,
}

/// A segment's unsigned words, RULES 1.3; of the Rust's TrimSegment.
#[derive(Clone, Copy, Debug, PartialEq)]
pub struct Words {
    /// The source's number: source.
    pub source: u64,
    /// Its first frame in the source: src_first_frame.
    pub first: u64,
    /// How many frames it has: frame_count.
    pub count: u64,
    /// Its first frame in the output: out_first_frame.
    pub out: u64,
    /// Whether it has a shift (0, 1): clock_shift.
    pub flag: u64,
}

/// A segment's signed words, RULES 1.3: its six times, and its shift.
#[derive(Clone, Copy, Debug, PartialEq)]
pub struct Stamps {
    /// src_start_us.
    pub source_start: i64,
    /// out_start_us.
    pub out_start: i64,
    /// duration_us.
    pub duration: i64,
    /// src_capture_start_us.
    pub source_capture_start: i64,
    /// out_capture_start_us.
    pub out_capture_start: i64,
    /// capture_duration_us.
    pub capture_duration: i64,
    /// clock_shift.
    pub shift: i64,
}

/// A segment; the Rust's TrimSegment.
#[derive(Clone, Copy, Debug, PartialEq)]
pub struct Segment {
    /// Its unsigned words.
    pub words: Words,
    /// Its signed words.
    pub stamps: Stamps,
}

/// What a segment's signed words say: whether one of the six times is negative, and each one's
/// magnitude. The magnitudes of times are used only where none is negative (13).
#[derive(Clone, Copy, Debug, PartialEq)]
pub struct SixTimes {
    /// Whether one of the times is negative.
    pub negative: bool,
    /// The magnitude of where it starts in the source.
    pub source_start: u64,
    /// Of where it starts in the output.
    pub out_start: u64,
    /// Of how long it is.
    pub duration: u64,
    /// Of where its capture starts in the source.
    pub source_capture_start: u64,
    /// Of where its capture starts in the output.
    pub out_capture_start: u64,
    /// Of how long its capture is.
    pub capture_duration: u64,
    /// Whether the shift is negative.
    pub back: bool,
    /// The magnitude of the shift.
    pub shift: u64,
}

/// Where a segment ends, if there is one: the frame, the time and the capture time after its last.
#[derive(Clone, Copy, Debug, PartialEq)]
pub struct Ends {
    /// Whether there is one.
    pub some: bool,
    /// The output frame after its last.
    pub frame: u64,
    /// The output time after it, in microseconds.
    pub time: u64,
    /// The capture time after it, in microseconds.
    pub capture: u64,
}

/// Whether there are over 256 sources or 512 segments: `OverLimit` (2).
pub fn over_limit(sources: usize, segments: usize) -> bool
    ensures { result ≡ over_limit sources segments }
{
    (sources > MAX_SOURCES) | (segments > MAX_SEGMENTS)
}

impl Source {
    /// Whether a flag or kind is outside its set, or the range of its creation time leaves a text of
    /// so many bytes: `Malformed` (1; RULES 3.2).
    #[tactic(auto, unfolding(crate::specs::Rules::bad_source))]
    pub fn is_bad(self, text_length: u64) -> bool
        ensures { result ≡ bad_source text_length self }
    {
        let leaves = conditions::is_past(self.from, self.size, text_length);
        ((self.dated > 1) | (self.kind > 2)) | ((self.imu_known > 1) | ((self.dated == 1) & leaves))
    }

    // Whether its frames, or either fps number, is 0 (4).
    fn has_zero(self) -> bool
        ensures { result ≡ zero_in_source self.frames self.numerator self.denominator }
    {
        ((self.frames == 0) | (self.numerator == 0)) | (self.denominator == 0)
    }

    // Whether it has a creation time that fails the UTC rule (5). A range that leaves the text, which
    // is malformed, is taken as far as the text goes.
    fn has_bad_date(self, text: &[u8]) -> bool
        ensures { result ≡ bad_date text.now self.dated self.from self.size }
    {
        let at = self.from as usize;
        let len = self.size as usize;
        if self.dated != 1 {
            return false;
        }
        if at > text.len() {
            return true;
        }
        if len > text.len() - at {
            return !utc::is_utc_second(&text[at..]);
        }
        let end = at + len;
        !utc::is_utc_second(&text[at..end])
    }

    // Whether it has a clock of which a rate number or the modulus is 0 (6).
    fn has_bad_clock(self) -> bool
        ensures { result ≡ bad_clock self.kind self.ticks self.per self.modulus }
    {
        (self.kind != 0)
            & (((self.ticks == 0) | (self.per == 0)) | ((self.kind == 2) & (self.modulus == 0)))
    }

    /// Why it is refused: `ZeroInSource` (4), `BadDate` (5), `BadClock` (6) or `NoClock` (7), the first
    /// that holds (RULES 3.3).
    #[tactic(auto, unfolding(crate::specs::Rules::source_refusal))]
    pub fn refusal(self, log: bool, text: &[u8]) -> Result<(), Reason>
        ensures { result ≡ source_refusal log text.now self }
    {
        if self.has_zero() {
            return Err(Reason::ZeroInSource);
        }
        if self.has_bad_date(text) {
            return Err(Reason::BadDate);
        }
        if self.has_bad_clock() {
            return Err(Reason::BadClock);
        }
        if log & (self.kind == 0) {
            return Err(Reason::NoClock);
        }
        Ok(())
    }
}

// Whether a start with its duration, or the capture pair, passes 2^63 - 1 (14).
fn too_late(start: u64, duration: u64, capture: u64, capture_duration: u64) -> bool
    ensures { result ≡ too_late start duration capture capture_duration }
{
    if conditions::is_past(start, duration, MAX_I64) {
        return true;
    }
    conditions::is_past(capture, capture_duration, MAX_I64)
}

// Whether a segment starts at another time than the one before it ends (16); the first is free.
fn is_apart(some: bool, time: u64, capture: u64, out_start: u64, out_capture_start: u64) -> bool
    ensures { result ≡ apart some time capture out_start out_capture_start }
{
    some & ((out_start != time) | (out_capture_start != capture))
}

// Whether there is a shift without a clock or a clock without a shift, or the shift is outside the
// clock's modulus (17).
fn bad_shift(kind: u64, modulus: u64, flag: u64, back: bool, shift: u64) -> bool
    ensures { result ≡ bad_shift kind modulus flag back shift }
{
    (((kind == 0) & (flag == 1)) | ((kind != 0) & (flag == 0)))
        | ((kind == 2) & (back | (modulus <= shift)))
}

// What refuses a segment for its frames: there are none (10), their numbers wrap (11), the source
// has fewer (12). Each test leaves at once, since most segments pass all and a walk of many is long.
#[tactic(auto)]
fn frames_refusal(frames: u64, source_first: u64, count: u64, out_first: u64) -> Result<(), Reason>
    ensures { result ≡ frames_or frames source_first count out_first (Ok tt) }
{
    if count == 0 {
        return Err(Reason::NoFrames);
    }
    if conditions::is_past(out_first, count, u64::MAX) {
        return Err(Reason::FramesWrap);
    }
    if conditions::is_past(source_first, count, u64::MAX) {
        return Err(Reason::FramesWrap);
    }
    if conditions::is_past(source_first, count, frames) {
        return Err(Reason::PastSource);
    }
    Ok(())
}

// What refuses a segment for its times or where it begins: one is negative (13), the source pairs are
// too late (14), its frames (15) or its times (16) don't follow, the out pairs are too late (14).
#[tactic(auto)]
fn times_refusal(previous: Ends, out_first: u64, times: SixTimes) -> Result<(), Reason>
    ensures { result ≡ times_or previous out_first times (Ok tt) }
{
    if times.negative {
        return Err(Reason::NegativeTime);
    }
    if too_late(
        times.source_start,
        times.duration,
        times.source_capture_start,
        times.capture_duration,
    ) {
        return Err(Reason::TooLate);
    }
    if out_first != previous.frame {
        return Err(Reason::FrameGap);
    }
    if is_apart(
        previous.some,
        previous.time,
        previous.capture,
        times.out_start,
        times.out_capture_start,
    ) {
        return Err(Reason::TimeGap);
    }
    if too_late(
        times.out_start,
        times.duration,
        times.out_capture_start,
        times.capture_duration,
    ) {
        return Err(Reason::TooLate);
    }
    Ok(())
}

// What refuses a segment of this source, after one that ends at `previous` (10 to 17).
#[tactic(auto, using(crate::proofs::Turns::judged_parts))]
fn judge(source: Source, previous: Ends, words: Words, times: SixTimes) -> Result<(), Reason>
    ensures { result ≡ judged source previous words times }
{
    frames_refusal(source.frames, words.first, words.count, words.out)?;
    times_refusal(previous, words.out, times)?;
    if bad_shift(
        source.kind,
        source.modulus,
        words.flag,
        times.back,
        times.shift,
    ) {
        return Err(Reason::BadShift);
    }
    Ok(())
}

/// Where a segment ends, after one that ends at `previous`, or what refuses it: `NoFrames` (10) to
/// `BadShift` (17), in the order of RULES 3.4.
#[tactic(auto, unfolding(crate::specs::Walks::turned, crate::specs::Rules::ends_of))]
pub fn turn_of(
    source: Source,
    previous: Ends,
    words: Words,
    times: SixTimes,
) -> Result<Ends, Reason>
    ensures { result ≡ turned source previous words times }
{
    judge(source, previous, words, times)?;
    Ok(Ends {
        some: true,
        frame: words.out + words.count,
        time: times.out_start + times.duration,
        capture: times.out_capture_start + times.capture_duration,
    })
}

/// No end: what stands before the first segment, and what a segment that isn't passed has.
#[tactic(auto, unfolding(crate::specs::Rules::start))]
pub fn no_end() -> Ends
    ensures { result ≡ start }
{
    Ends {
        some: false,
        frame: 0,
        time: 0,
        capture: 0,
    }
}

// A number that isn't negative.
fn plain(number: i64) -> u64
    requires { negative number ≡ false }
    ensures { (result ≡ unsigned_abs number) × (result ≤ max_i64) }
{
    number as u64
}

// Whether any of six times is negative.
fn any_negative(
    source_start: i64,
    out_start: i64,
    duration: i64,
    source_capture_start: i64,
    out_capture_start: i64,
    capture_duration: i64,
) -> bool
    ensures { result
        ≡ ((negative source_start || negative out_start)
        || (negative duration || negative source_capture_start))
        || (negative out_capture_start || negative capture_duration) }
{
    let first = (source_start < 0) | (out_start < 0);
    let second = (duration < 0) | (source_capture_start < 0);
    let third = (out_capture_start < 0) | (capture_duration < 0);
    (first | second) | third
}

// `fine_frames`, `fine_shift`, `late` and `fine_times` are a second copy of the tests of
// `frames_refusal`, `bad_shift`, `too_late` and `times_refusal`, for `pass`. A walk by it asks only
// whether nothing refuses, so that the tests are few, in an order that is cheap: most segments
// pass (docs/DECISIONS.md, 'Tables').

// Whether nothing refuses a segment for its frames (10, 11, 12, 15), after one whose end at `before`.
// Which would be first isn't asked, so that each sum is tested once.
fn fine_frames(frames: u64, source_first: u64, count: u64, out_first: u64, before: u64) -> bool
    ensures { (result ≡ true) ↔ FineFrames frames source_first count out_first before }
{
    if count == 0 {
        return false;
    }
    if out_first != before {
        return false;
    }
    if count > u64::MAX - out_first {
        return false;
    }
    if count > frames {
        return false;
    }
    source_first <= frames - count
}

// Whether a segment's flag is in its set (1) and its shift goes with the clock (17).
fn fine_shift(kind: u64, modulus: u64, flag: u64, shift: i64) -> bool
    ensures { (result ≡ true) ↔ FineShift kind modulus flag shift }
{
    if kind == 0 {
        return flag == 0;
    }
    if flag != 1 {
        return false;
    }
    if kind != 2 {
        return true;
    }
    if shift < 0 {
        return false;
    }
    plain(shift) < modulus
}

// The same as `too_late` (14) of numbers that an i64 holds: their sums fit.
#[tactic(auto, unfolding(conditions::specs::Conditions::past))]
fn late(start: u64, duration: u64, capture: u64, capture_duration: u64) -> bool
    requires { (start ≤ max_i64) × (duration ≤ max_i64) × (capture ≤ max_i64)
        × (capture_duration ≤ max_i64) }
    ensures { result ≡ too_late start duration capture capture_duration }
{
    (start + duration > MAX_I64) | (capture + capture_duration > MAX_I64)
}

// Whether a segment whose times aren't negative isn't too late (14) and starts when the one before it
// ends (16), at `previous`.
fn fine_times(
    previous: Ends,
    source_start: u64,
    out_start: u64,
    duration: u64,
    source_capture_start: u64,
    out_capture_start: u64,
    capture_duration: u64,
) -> bool
    requires { (source_start ≤ max_i64) × (out_start ≤ max_i64) × (duration ≤ max_i64)
        × (source_capture_start ≤ max_i64) × (out_capture_start ≤ max_i64)
        × (capture_duration ≤ max_i64) }
    ensures { result
        ≡ not (out_of_time previous source_start out_start duration source_capture_start
        out_capture_start capture_duration) }
{
    let gap = is_apart(
        previous.some,
        previous.time,
        previous.capture,
        out_start,
        out_capture_start,
    );
    let source_late = late(
        source_start,
        duration,
        source_capture_start,
        capture_duration,
    );
    let out_late = late(out_start, duration, out_capture_start, capture_duration);
    !(gap | (source_late | out_late))
}

/// What a segment's signed words say.
#[tactic(auto, unfolding(crate::specs::Rules::stamp_times))]
pub fn times_of(stamps: Stamps) -> SixTimes
    ensures { result ≡ stamp_times stamps }
{
    SixTimes {
        negative: any_negative(
            stamps.source_start,
            stamps.out_start,
            stamps.duration,
            stamps.source_capture_start,
            stamps.out_capture_start,
            stamps.capture_duration,
        ),
        source_start: stamps.source_start.unsigned_abs(),
        out_start: stamps.out_start.unsigned_abs(),
        duration: stamps.duration.unsigned_abs(),
        source_capture_start: stamps.source_capture_start.unsigned_abs(),
        out_capture_start: stamps.out_capture_start.unsigned_abs(),
        capture_duration: stamps.capture_duration.unsigned_abs(),
        back: stamps.shift < 0,
        shift: stamps.shift.unsigned_abs(),
    }
}

/// Where a segment ends that was passed.
#[tactic(auto, unfolding(crate::specs::Rules::ends, crate::specs::Rules::ends_of, crate::specs::Rules::stamp_times))]
pub fn end_of(segment: Segment) -> Ends
    requires { EndFits segment }
    ensures { result ≡ ends segment }
{
    let words = segment.words;
    let numbers = times_of(segment.stamps);
    Ends {
        some: true,
        frame: words.out + words.count,
        time: numbers.out_start + numbers.duration,
        capture: numbers.out_capture_start + numbers.capture_duration,
    }
}

/// Passes a segment of this source, after one that ends at `previous`: where it ends, or no end
/// where its flag (1) or anything else (10 to 17) refuses it.
pub fn pass(source: Source, previous: Ends, segment: Segment) -> Ends
    ensures { Passing source previous segment.words segment.stamps result }
{
    let words = segment.words;
    let stamps = segment.stamps;
    if !fine_frames(
        source.frames,
        words.first,
        words.count,
        words.out,
        previous.frame,
    ) {
        return no_end();
    }
    if any_negative(
        stamps.source_start,
        stamps.out_start,
        stamps.duration,
        stamps.source_capture_start,
        stamps.out_capture_start,
        stamps.capture_duration,
    ) {
        return no_end();
    }
    let out_start = plain(stamps.out_start);
    let duration = plain(stamps.duration);
    let out_capture_start = plain(stamps.out_capture_start);
    let capture_duration = plain(stamps.capture_duration);
    if !fine_times(
        previous,
        plain(stamps.source_start),
        out_start,
        duration,
        plain(stamps.source_capture_start),
        out_capture_start,
        capture_duration,
    ) {
        return no_end();
    }
    if !fine_shift(source.kind, source.modulus, words.flag, stamps.shift) {
        return no_end();
    }
    Ends {
        some: true,
        frame: words.out + words.count,
        time: out_start + duration,
        capture: out_capture_start + capture_duration,
    }
}

/// A table is refused with the first condition of RULES 3 that holds of it, and accepted where none
/// does.
#[tactic(auto, using(crate::proofs::Exact::rightly))]
pub fn refusals_are_right()
    ensures { (table : Table)
        → Rightly (check_of table) (tests table) (frame_total table.segments) }
{}
