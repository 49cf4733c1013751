//! The presentation times of the frames of a moov's first video track: RULES 8.
#![tactic(auto)]

mod frames;
mod moov;
mod part;
mod times;
mod track;

ghost use Rattle.frame_times.specs.Times.{MoovAnswers};

use moov::of_moov;
use refusal::Refusal;
use ticks::FrameTimes;

/// The frames that an edit keeps (RULES 8.6); times are in ticks of the track's scale.
#[derive(Clone, Copy, Debug, PartialEq, Eq)]
pub struct Kept {
    /// How many they are.
    pub count: usize,
    /// When the first is decoded.
    pub first: u64,
    /// The composition time of the last.
    pub last: i64,
    /// The duration of the last.
    pub last_duration: u64,
}

/// The frames that the first video track of a moov's payload presents, and over `starts` where each
/// starts, in ticks of the track's scale: the Rust's `video_frame_times_of_moov` (RULES 8; ISO/IEC
/// 14496-12, 8.6). With `standard` the composition offsets of version 0 are unsigned, which the
/// Rust's never are (RULES 8.4). The starts and both working slices need room for as many numbers
/// as the track has frames; afterwards the working slices are all zero. Refuses, in the order of
/// RULES 8.9, with `TooLong` (30), `Missing` (31), `Broken` (36) with the broken header's offset in
/// the moov, `NoRoom` (32) or `Outside` (33), and then leaves `starts` as they were lent.
pub fn video_frame_times_of_moov(
    moov: &[u8],
    standard: bool,
    starts: &mut [i64],
    first_work: &mut [i64],
    second_work: &mut [i64],
) -> Result<FrameTimes, Refusal>
    ensures { MoovAnswers standard moov.now starts.old first_work.old second_work.old result
        starts.new first_work.new second_work.new }
{
    let answer = of_moov(moov, standard, starts, first_work, second_work);
    slices::clear(first_work);
    slices::clear(second_work);
    answer
}
