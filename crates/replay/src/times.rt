//! The frame times of moovs and of recordings.
use crate::case::{Bytes, Case, Fault};
use crate::lent::Room;
use crate::line::{Line, Values};
use refusal::Refusal;
use ticks::FrameTimes;

impl Values for FrameTimes {
    fn say(self, line: &mut Line) -> Result<(), Fault> {
        line.value(self.frames)?;
        line.value(self.scale)?;
        line.value(self.nominal)?;
        line.value(self.end)
    }
}

// Frame times, and the starts that were written; a refusal writes none.
fn say_times(
    line: &mut Line,
    answer: Result<FrameTimes, Refusal>,
    starts: &Room<i64>,
) -> Result<(), Fault> {
    line.answer(answer)?;
    line.written(starts, answer.map_or(0, |times| times.frames))
}

/// video_frame_times_of_moov BYTES FLAG ROOM ROOM ROOM
pub fn video_frame_times_of_moov(case: &mut Case<'_>, line: &mut Line) -> Result<(), Fault> {
    let Bytes(moov) = case.take()?;
    let standard = case.take()?;
    let mut starts: Room<i64> = case.take()?;
    let mut first_work: Room<i64> = case.take()?;
    let mut second_work: Room<i64> = case.take()?;
    case.end()?;
    let answer = frame_times::video_frame_times_of_moov(
        moov.as_slice(),
        standard,
        starts.lend(),
        first_work.lend(),
        second_work.lend(),
    );
    line.cleared(&first_work);
    line.cleared(&second_work);
    say_times(line, answer, &starts)
}

/// mcraw_times LONGS ROOM ROOM
pub fn mcraw_times(case: &mut Case<'_>, line: &mut Line) -> Result<(), Fault> {
    let timestamps: Vec<i64> = case.take()?;
    let mut starts: Room<i64> = case.take()?;
    let mut work: Room<i64> = case.take()?;
    case.end()?;
    let answer = mcraw::mcraw_times(timestamps.as_slice(), starts.lend(), work.lend());
    line.cleared(&work);
    say_times(line, answer, &starts)
}
