//! The check of tables, their lookups and their rows.
use crate::case::{Argument, Bytes, Case, Fault};
use crate::lent::{Room, Rows};
use crate::line::Line;
use crate::listed;

/// A table, as the calls take it.
#[derive(Drop)]
pub struct Table {
    sources: Vec<u64>,
    words: Vec<u64>,
    stamps: Vec<i64>,
    log: bool,
    text: Vec<u8>,
}

impl Argument for Table {
    fn read(case: &mut Case<'_>) -> Result<Table, Fault> {
        let sources = case.take()?;
        let words = case.take()?;
        let stamps = case.take()?;
        let log = case.take()?;
        let Bytes(text) = case.take()?;
        Ok(Table {
            sources,
            words,
            stamps,
            log,
            text,
        })
    }
}

impl Table {
    pub fn lend(&self) -> (&[u64], &[u64], &[i64], bool, &[u8]) {
        (
            self.sources.as_slice(),
            self.words.as_slice(),
            self.stamps.as_slice(),
            self.log,
            self.text.as_slice(),
        )
    }
}

/// check TABLE
pub fn check(case: &mut Case<'_>, line: &mut Line) -> Result<(), Fault> {
    let table: Table = case.take()?;
    case.end()?;
    let (sources, words, stamps, log, text) = table.lend();
    line.answer(table::check(sources, words, stamps, log, text))
}

/// segment_of_frame TABLE FRAME
pub fn segment_of_frame(case: &mut Case<'_>, line: &mut Line) -> Result<(), Fault> {
    let table: Table = case.take()?;
    let frame = case.take()?;
    case.end()?;
    let (sources, words, stamps, log, text) = table.lend();
    line.answer(lookup::segment_of_frame(sources, words, stamps, log, text, frame))
}

/// segment_of_frame_records TABLE FRAME, where the table's words are lent as records
pub fn segment_of_frame_records(case: &mut Case<'_>, line: &mut Line) -> Result<(), Fault> {
    let table: Table = case.take()?;
    let frame = case.take()?;
    case.end()?;
    let (sources, words, stamps, log, text) = table.lend();
    let list = listed::records_of(case.alloc(), words, stamps)?;
    let records = list.as_slice();
    line.answer(records::segment_of_frame_records(sources, text, records, log, frame))
}

/// segment_of_time_us TABLE TIME
pub fn segment_of_time_us(case: &mut Case<'_>, line: &mut Line) -> Result<(), Fault> {
    let table: Table = case.take()?;
    let time = case.take()?;
    case.end()?;
    let (sources, words, stamps, log, text) = table.lend();
    line.answer(lookup::segment_of_time_us(sources, words, stamps, log, text, time))
}

/// continues TABLE SEGMENT
pub fn continues(case: &mut Case<'_>, line: &mut Line) -> Result<(), Fault> {
    let table: Table = case.take()?;
    let segment = case.take()?;
    case.end()?;
    let (sources, words, stamps, log, text) = table.lend();
    line.answer(lookup::continues(sources, words, stamps, log, text, segment))
}

/// segments_of_frames TABLE FRAMES ROOM
pub fn segments_of_frames(case: &mut Case<'_>, line: &mut Line) -> Result<(), Fault> {
    let table: Table = case.take()?;
    let frames: Vec<u64> = case.take()?;
    let mut out: Room<u64> = case.take()?;
    case.end()?;
    let (sources, words, stamps, log, text) = table.lend();
    let frames = frames.as_slice();
    let answer = lookups::segments_of_frames(sources, words, stamps, log, text, frames, out.lend());
    line.answer(answer)?;
    line.written(&out, answer.unwrap_or(0))
}

/// rows_of_table TABLE ROOM ROOM
pub fn rows_of_table(case: &mut Case<'_>, line: &mut Line) -> Result<(), Fault> {
    let table: Table = case.take()?;
    let mut rows: Rows = case.take()?;
    case.end()?;
    let (sources, words, stamps, log, text) = table.lend();
    let (out_words, out_shifts) = rows.lend();
    let answer = table_rows::rows_of_table(
        sources, words, stamps, log, text, out_words, out_shifts,
    );
    line.rows(answer, &rows)
}
