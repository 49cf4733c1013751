// Starts, the end and the nominal, from the composition times that are kept: RULES 8.7 and 8.8.
ghost use Rattle.std.specs.Prelude.{◌≡◌, map, ◌-◌, ◌≤◌, ◌<◌, length, pos};
ghost use Rattle.std.specs.List.{AllByRecursion};
ghost use Rattle.slices.specs.Slices.{laid};
ghost use Rattle.order.specs.Order.{mode};
ghost use Rattle.boxes.specs.Boxes.{most_bytes};
ghost use Rattle.tracks.specs.Tables.{entries_of, entry_total, durations};
ghost use Rattle.tracks.specs.SoundEdits.{Sound};
ghost use Rattle.frame_times.specs.Frames.{time_origin, capped, moved_time};
ghost use Rattle.frame_times.specs.Times.{shown};
ghost use Rattle.frame_times.specs.Found.{times_of_timing};
ghost use Rattle.frame_times.specs.KeptFrames.{Movable, Showable, OutcomeAnswered};

use crate::frames::keep;
use crate::track::Timing;
use refusal::{Reason, Refusal};
use ticks::FrameTimes;
use tracks::Edit;

// Where the starts count from, with the least composition time and the first decode time kept.
fn origin_of(edit: Edit, least: i64, first: i64) -> i64
    ensures { result ≡ time_origin edit least first }
{
    if edit.edited {
        return least.max(first);
    }
    0
}

// A time, at most the media end.
fn capped_at(end: Option<i64>, time: i64) -> i64
    ensures { result ≡ capped end time }
{
    match end {
        Some(end) if end < time => end,
        Some(_) | None => time,
    }
}

// Writes the times, each less the origin and later by the empty ticks, over the first of starts.
#[tactic(auto, using(crate::proofs::ShowLaws::start_fits, crate::proofs::ShowLaws::place_more))]
fn write_starts(times: &[i64], origin: i64, empty: i64, starts: &mut [i64])
    requires times_in_bounds { length times.now ≤ length starts.old }
    requires all { AllByRecursion (λ time. Movable origin empty time) times.now }
    ensures { starts.new ≡ laid (map (moved_time origin empty) times.now) starts.old }
{
    for i in 0..times.len() {
        starts[i] = (times[i] - origin) + empty;
    }
}

// Answers with the composition times that are kept, in ascending order, and writes the starts. No
// start is past the end, so that the end alone is tested.
fn show(
    times: &[i64],
    first: i64,
    last: i64,
    edit: Edit,
    nominal: i64,
    scale: u64,
    starts: &mut [i64],
) -> Result<FrameTimes, Refusal>
    requires able { Showable times.now first last edit }
    requires some { 0 < length times.now }
    requires room { length times.now ≤ length starts.old }
    ensures { OutcomeAnswered (shown scale nominal edit first last times.now) result
        starts.old starts.new }
{
    let origin = origin_of(edit, times[0], first);
    let empty = edit.empty;
    let Some(end) = (capped_at(edit.end, last) - origin).checked_add(empty) else {
        return Err(Reason::Outside.at(0));
    };
    write_starts(times, origin, empty, starts);
    Ok(FrameTimes {
        frames: times.len(),
        scale,
        nominal,
        end,
    })
}

// The most frequent of durations, of several the smallest; 0 where there are none. They are sorted.
#[tactic(auto, using(crate::proofs::FrameLaws::modes))]
fn nominal_of(durations: &mut [i64], scratch: &mut [i64]) -> i64
    requires { length durations.old ≤ length scratch.old }
    ensures { result ≡ mode durations.old }
{
    if durations.len() == 0 {
        return 0;
    }
    order::sort_any(durations, scratch);
    order::most_frequent(durations)
}

// Answers with two whole tables and an edit. The second working slice has the durations: their sort
// takes both, and so the stts is walked again beside the ctts.
#[tactic(auto, using(crate::proofs::KeepLaws::lengths))]
pub(crate) fn present(
    timing: Timing<'_>,
    scale: u64,
    starts: &mut [i64],
    first_work: &mut [i64],
    second_work: &mut [i64],
) -> Result<FrameTimes, Refusal>
    requires in_bounds { (length first_work.old
        ≡ entry_total (entries_of timing.durations.entries timing.durations.payload.now))
        × (length first_work.old ≤ most_bytes) × (length first_work.old ≤ length starts.old) }
    requires durations_laid { second_work.old
        ≡ map pos (durations timing.durations.entries timing.durations.payload.now) }
    requires sound { Sound timing.edit }
    ensures { OutcomeAnswered (times_of_timing timing.entry scale) result starts.old starts.new }
{
    let nominal = nominal_of(second_work, first_work);
    if nominal <= 0 {
        return Err(Reason::Missing.at(0));
    }
    let kept = keep(timing, first_work);
    let count = kept.count;
    if count == 0 {
        return Err(Reason::Missing.at(0));
    }
    let times = &mut first_work[..count];
    order::sort(times, second_work);
    let first = kept.first as i64;
    let last = kept.last + (kept.last_duration as i64);
    show(times, first, last, timing.edit, nominal, scale, starts)
}
