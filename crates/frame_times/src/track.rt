// A video track, and the times of its frames.
ghost use Rattle.std.specs.Prelude.{◌<◌, ◌≤◌, ◌^◌};
ghost use Rattle.boxes.specs.Boxes.{most_bytes};

use crate::part::needed;
use crate::times::present;
use refusal::{Reason, Refusal};
use ticks::FrameTimes;
use tracks::Edit;
use tracks::edits::edit_of;
use tracks::entries::EntryTable;
use tracks::tables::lay;

/// A video track: the most frames that it can have, which is the moov's bytes; the movie's
/// timescale, which isn't 0, and its own, in ticks a second; the payloads of its tables. An edts or
/// a ctts that is absent is empty.
#[derive(Clone, Copy)]
pub(crate) struct Track<'a> {
    pub most_frames: usize,
    pub movie: u64,
    pub scale: u64,
    pub edts: &'a [u8],
    pub ctts: &'a [u8],
    pub stts: &'a [u8],
    // A track has no more frames than the moov has bytes.
    ghost few: { most_frames ≤ most_bytes },
    ghost movie_some: { 0 < movie },
    ghost movie_fits: { movie < 2 ^ 32 },
    ghost scale_fits: { scale < 2 ^ 32 },
}

/// What tells when a track's frames are: their durations and offsets, how the offsets are read, and
/// the edit.
#[derive(Clone, Copy)]
pub(crate) struct Timing<'a> {
    pub durations: EntryTable<'a>,
    pub offsets: EntryTable<'a>,
    pub standard: bool,
    pub edit: Edit,
}

impl Track<'_> {
    ghost use Rattle.frame_times.specs.Times.{room, outcome_of, times_in};
    ghost use Rattle.frame_times.specs.Found.{track_seen};
    ghost use Rattle.frame_times.specs.KeptFrames.{OutcomeAnswered};

    // Answers with the tables: the durations are judged, then the offsets and the edit (RULES 8.9).
    #[tactic(auto, using(crate::proofs::KeepLaws::lengths))]
    pub(crate) fn times(
        self,
        standard: bool,
        starts: &mut [i64],
        first_work: &mut [i64],
        second_work: &mut [i64],
    ) -> Result<FrameTimes, Refusal>
        ensures { OutcomeAnswered
            (outcome_of (times_in standard (room starts.old first_work.old second_work.old)
            (track_seen self.entry)))
            result starts.old starts.new }
    {
        let durations = needed(EntryTable::of(self.stts))?;
        let frames = lay(durations, self.most_frames, second_work);
        if self.most_frames < frames {
            return Err(Reason::Missing.at(0));
        }
        if starts.len().min(first_work.len()).min(second_work.len()) < frames {
            return Err(Reason::NoRoom.at(0));
        }
        let offsets = needed(EntryTable::of_optional(self.ctts))?;
        let edit = needed(edit_of(self.edts, self.scale, self.movie))?;
        let timing = Timing {
            durations,
            offsets,
            standard,
            edit,
        };
        present(
            timing,
            self.scale,
            starts,
            &mut first_work[..frames],
            &mut second_work[..frames],
        )
    }
}
