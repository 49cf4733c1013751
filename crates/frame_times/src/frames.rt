// The pass over the frames, in decode order: RULES 8.6.
ghost use Rattle.std.specs.Prelude.{◌≡◌, ◌≤◌, length};
ghost use Rattle.boxes.specs.Boxes.{most_bytes};
ghost use Rattle.tracks.specs.Tables.{entries_of, entry_total};
ghost use Rattle.frame_times.specs.Frames.{in_edit};
ghost use Rattle.frame_times.specs.Found.{frames_kept};
ghost use Rattle.frame_times.specs.KeptFrames.{Tallied, kept_with};

use crate::Kept;
use crate::track::Timing;
use tracks::Edit;
use tracks::tables::{offset, offset_wrap};

// Whether a composition time is kept: the closure in_edit of the Rust.
fn in_edit(edit: Edit, cts: i64) -> bool
    ensures { result ≡ in_edit edit cts }
{
    if cts < edit.time {
        return false;
    }
    match edit.end {
        Some(end) => cts < end,
        None => true,
    }
}

// One kept frame more, which comes last where its composition time isn't below the last one's.
fn with_frame(kept: Kept, decode: u64, cts: i64, duration: u64) -> Kept
    requires { kept.count ≤ most_bytes }
    ensures { result ≡ kept_with kept decode cts duration }
{
    if kept.count == 0 {
        return Kept {
            count: 1,
            first: decode,
            last: cts,
            last_duration: duration,
        };
    }
    let more = Kept {
        count: kept.count + 1,
        ..kept
    };
    if kept.last <= cts {
        return Kept {
            last: cts,
            last_duration: duration,
            ..more
        };
    }
    more
}

// Walks the durations beside the offsets, one frame of each a turn, and lays the composition times
// that are kept over times: the Rust's decoded and presented.
pub(crate) fn keep(timing: Timing<'_>, times: &mut [i64]) -> Kept
    requires { (length times.old
        ≡ entry_total (entries_of timing.durations.entries timing.durations.payload.now))
        × (length times.old ≤ most_bytes) }
    ensures { Tallied timing.entry.edit (frames_kept timing.entry) result times.new }
{
    let wrap = offset_wrap(timing.standard, timing.offsets.payload);
    let mut offsets = timing.offsets.frames();
    let mut kept = Kept {
        count: 0,
        first: 0,
        last: 0,
        last_duration: 0,
    };
    let mut passed: u64 = 0;
    for duration in timing.durations.frames() {
        let decode = passed;
        let span = duration as u64;
        let cts = (decode as i64) + offset(wrap, offsets.next().unwrap_or(0));
        passed += span;
        if in_edit(timing.edit, cts) {
            let at = kept.count;
            times[at] = cts;
            kept = with_frame(kept, decode, cts, span);
        }
    }
    kept
}
