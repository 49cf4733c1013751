//! The frame times of a MotionCam recording, of its frames' timestamps in nanoseconds: RULES 9.
#![tactic(auto)]

ghost use Rattle.std.specs.Prelude.{◌≡◌, ◌-◌, ◌≤◌, length};
ghost use Rattle.std.specs.List.{AllByRecursion};
ghost use Rattle.signed.specs.Fits.{I64};
ghost use Rattle.slices.specs.Slices.{laid};
ghost use Rattle.mcraw.specs.Mcraw.{gaps, starts_of, nominal, fall_of, mcraw_times, starts_written, McrawAnswers};
ghost use Rattle.mcraw.specs.Examples.{WorkedExamples};

use refusal::{Reason, Refusal};
use ticks::FrameTimes;

/// The most timestamps; more are refused with 30, `TooLong` (RULES 11).
pub const MOST_TIMESTAMPS: usize = 16_777_216;

/// The scale of a recording: its ticks are nanoseconds (RULES 9.1).
pub const NANOSECONDS: u64 = 1_000_000_000;

// The first timestamp that lies below the one before it.
#[tactic(auto, using(crate::proofs::Gaps::falling), unfolding(crate::specs::Mcraw::fall_of))]
fn first_fall(timestamps: &[i64]) -> Result<(), Refusal>
    ensures { result ≡ fall_of timestamps.now }
{
    for i in 1..timestamps.len() {
        if timestamps[i] < timestamps[i - 1] {
            return Err(Reason::Falling.at(i));
        }
    }
    Ok(())
}

// Writes each timestamp less the one before it.
fn write_intervals(timestamps: &[i64], out: &mut [i64])
    requires { (length out.old ≡ length timestamps.now - 1)
        × AllByRecursion I64 (gaps timestamps.now) }
    ensures { out.new ≡ gaps timestamps.now }
{
    for i in 1..timestamps.len() {
        out[i - 1] = timestamps[i] - timestamps[i - 1];
    }
}

// The lower middle one of the intervals, which are moved about in out.
#[tactic(auto, using(signed::proofs::Bits::back), unfolding(crate::specs::Mcraw::nominal))]
fn middle_interval(timestamps: &[i64], out: &mut [i64]) -> i64
    requires { (2 ≤ length timestamps.now) × (length out.old ≡ length timestamps.now - 1)
        × AllByRecursion I64 (gaps timestamps.now) }
    ensures { result ≡ nominal timestamps.now }
{
    write_intervals(timestamps, out);
    selection::select(out, (timestamps.len() - 2) / 2)
}

// Writes each timestamp less the first over the start of starts.
fn write_starts(timestamps: &[i64], starts: &mut [i64])
    requires { (length timestamps.now ≤ length starts.old)
        × AllByRecursion I64 (starts_of timestamps.now) }
    ensures { starts.new ≡ laid (starts_of timestamps.now) starts.old }
{
    for i in 0..timestamps.len() {
        starts[i] = timestamps[i] - timestamps[0];
    }
}

// Answers with so much room in starts. What work holds afterwards isn't said.
#[tactic(auto, unfolding(crate::specs::Mcraw::mcraw_times, crate::specs::Mcraw::refusal_of, crate::specs::Mcraw::times_of, crate::specs::Mcraw::span, crate::specs::Mcraw::end))]
fn times_of(timestamps: &[i64], room: usize, work: &mut [i64]) -> Result<FrameTimes, Refusal>
    ensures { result ≡ mcraw_times timestamps.now room (length work.old) }
{
    let n = timestamps.len();
    if MOST_TIMESTAMPS < n {
        return Err(Reason::TooLong.at(0));
    }
    if n < 2 {
        return Err(Reason::Missing.at(0));
    }
    first_fall(timestamps)?;
    let Some(span) = timestamps[n - 1].checked_sub(timestamps[0]) else {
        return Err(Reason::Outside.at(0));
    };
    if (room < n) | (work.len() < n) {
        return Err(Reason::NoRoom.at(0));
    }
    let nominal = middle_interval(timestamps, &mut work[..n - 1]);
    if nominal == 0 {
        return Err(Reason::Missing.at(0));
    }
    let Some(end) = span.checked_add(nominal) else {
        return Err(Reason::Outside.at(0));
    };
    Ok(FrameTimes {
        frames: n,
        scale: NANOSECONDS,
        nominal,
        end,
    })
}

// The same, with the starts written where nothing is refused.
#[tactic(auto, unfolding(crate::specs::Mcraw::mcraw_times, crate::specs::Mcraw::starts_written))]
fn write_times(
    timestamps: &[i64],
    starts: &mut [i64],
    work: &mut [i64],
) -> Result<FrameTimes, Refusal>
    ensures { (result ≡ mcraw_times timestamps.now (length starts.old) (length work.old))
        × (starts.new ≡ laid (starts_written result timestamps.now) starts.old) }
{
    let times = times_of(timestamps, starts.len(), work)?;
    write_starts(timestamps, starts);
    Ok(times)
}

/// The frame times of a recording, of its timestamps in nanoseconds: over `starts` where each frame
/// starts, counted from the first, and the working slice all zero afterwards. Both have to be as
/// long as the timestamps or longer. Refuses, in this order: 30, `TooLong`; 31, `Missing`, under
/// two timestamps; 34, `Falling`, at the later one of the first pair that falls; 33, `Outside`, for
/// a span that no i64 holds; 32, `NoRoom`; 31 for a nominal of 0; 33 for an end that no i64 holds.
/// RULES 9; the Rust's `mcraw_times`.
pub fn mcraw_times(
    timestamps: &[i64],
    starts: &mut [i64],
    work: &mut [i64],
) -> Result<FrameTimes, Refusal>
    ensures { McrawAnswers timestamps.now starts.old work.old result starts.new work.new }
{
    let answer = write_times(timestamps, starts, work);
    slices::clear(work);
    answer
}

/// A theorem: the definitions give the numbers of specs/Examples.antt.
#[tactic(auto, unfolding(crate::specs::Mcraw::mcraw_times, crate::specs::Mcraw::refusal_of, crate::specs::Mcraw::times_of, crate::specs::Mcraw::fall_of, crate::specs::Mcraw::gaps, crate::specs::Mcraw::span, crate::specs::Mcraw::nominal, crate::specs::Mcraw::end, crate::specs::Mcraw::starts_of, crate::specs::Mcraw::starts_written, refusal::specs::Refusals::first_refused, order::specs::Order::sorted, order::specs::Order::insert))]
pub fn worked_examples_hold()
    ensures { WorkedExamples }
{}
