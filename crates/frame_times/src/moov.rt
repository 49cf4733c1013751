// From the moov to its first video track, in the order of the Rust: RULES 8.1 and 8.2.
ghost use Rattle.std.specs.Prelude.{◌≡◌};
ghost use Rattle.frame_times.specs.Times.{room, found, track_by, times_of_moov};
ghost use Rattle.frame_times.specs.Found.{track_seen, answer_seen};
ghost use Rattle.frame_times.specs.KeptFrames.{OutcomeAnswered};

use crate::part::{Part, needed};
use crate::track::Track;
use boxes::MOST_BYTES;
use boxes::places::inner_child;
use boxes::read::code;
use boxes::track::find_video_track;
use refusal::{Reason, Refusal};
use ticks::FrameTimes;
use tracks::tables::timescale;

// The first video track of a moov.
fn video_track(moov: &[u8]) -> Result<Track<'_>, Refusal>
    ensures { answer_seen track_seen result ≡ track_by found moov.now }
{
    let most = moov.len();
    if MOST_BYTES < most {
        return Err(Reason::TooLong.at(0));
    }
    let moov = Part {
        bytes: moov,
        base: 0,
    };
    let mvhd = moov.child(b"mvhd")?;
    let movie = needed(timescale(mvhd.bytes))?;
    let trak = moov.found(find_video_track(moov.bytes))?;
    let mdia = trak.child(b"mdia")?;
    let mdhd = mdia.child(b"mdhd")?;
    let scale = needed(timescale(mdhd.bytes))?;
    if (scale == 0) | (movie == 0) {
        return Err(Reason::Missing.at(0));
    }
    let minf = mdia.child(b"minf")?;
    let stbl = minf.child(b"stbl")?;
    let stts = stbl.child(b"stts")?;
    Ok(Track {
        most_frames: most,
        movie: movie as u64,
        scale: scale as u64,
        edts: inner_child(trak.bytes, code(b"edts")),
        ctts: inner_child(stbl.bytes, code(b"ctts")),
        stts: stts.bytes,
    })
}

// Answers with a moov, and leaves the working slices as they happen to be.
#[tactic(auto, unfolding(crate::specs::Times::times_of_moov))]
pub(crate) fn of_moov(
    moov: &[u8],
    standard: bool,
    starts: &mut [i64],
    first_work: &mut [i64],
    second_work: &mut [i64],
) -> Result<FrameTimes, Refusal>
    ensures { OutcomeAnswered
        (times_of_moov standard moov.now (room starts.old first_work.old second_work.old))
        result starts.old starts.new }
{
    video_track(moov)?.times(standard, starts, first_work, second_work)
}
