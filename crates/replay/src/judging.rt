//! Tables against their videos and recordings.
use crate::case::{Case, Fault};
use crate::lent::Room;
use crate::line::Line;
use crate::tables::Table;
use judge::Video;

// A table against a video.
fn validate(line: &mut Line, table: &Table, video: Video, starts: &[i64]) -> Result<(), Fault> {
    let (sources, words, stamps, log, text) = table.lend();
    line.answer(judge::validate(sources, words, stamps, log, text, video, starts))
}

/// validate_no_video TABLE
pub fn validate_no_video(case: &mut Case<'_>, line: &mut Line) -> Result<(), Fault> {
    let table: Table = case.take()?;
    case.end()?;
    validate(line, &table, Video::Nothing, &[])
}

/// validate_constant TABLE FRAMES NUM DEN
pub fn validate_constant(case: &mut Case<'_>, line: &mut Line) -> Result<(), Fault> {
    let table: Table = case.take()?;
    let frames = case.take()?;
    let numerator = case.take()?;
    let denominator = case.take()?;
    case.end()?;
    validate(
        line,
        &table,
        Video::Constant {
            frames,
            numerator,
            denominator,
        },
        &[],
    )
}

/// validate_times TABLE SCALE STARTS END NOMINAL
pub fn validate_times(case: &mut Case<'_>, line: &mut Line) -> Result<(), Fault> {
    let table: Table = case.take()?;
    let scale = case.take()?;
    let starts: Vec<i64> = case.take()?;
    let end = case.take()?;
    let nominal = case.take()?;
    case.end()?;
    let video = Video::Times {
        scale,
        end,
        nominal,
    };
    validate(line, &table, video, starts.as_slice())
}

/// check_mcraw TABLE TIMESTAMPS ROOM ROOM
pub fn check_mcraw(case: &mut Case<'_>, line: &mut Line) -> Result<(), Fault> {
    let table: Table = case.take()?;
    let timestamps: Vec<i64> = case.take()?;
    let mut first_work: Room<i64> = case.take()?;
    let mut second_work: Room<i64> = case.take()?;
    case.end()?;
    let (sources, words, stamps, log, text) = table.lend();
    let answer = judge::check_mcraw(
        sources,
        words,
        stamps,
        log,
        text,
        timestamps.as_slice(),
        first_work.lend(),
        second_work.lend(),
    );
    line.cleared(&first_work);
    line.cleared(&second_work);
    line.answer(answer)
}
