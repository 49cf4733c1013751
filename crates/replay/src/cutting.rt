//! Cuts, joins, merges and origins of maps.
use crate::case::{Argument, Case, Fault};
use crate::lent::{Room, Rows};
use crate::line::{Line, Values};
use rows::Origin;

// A map, as the calls take it.
#[derive(Drop)]
struct Map {
    words: Vec<u64>,
    shifts: Vec<i64>,
}

impl Argument for Map {
    fn read(case: &mut Case<'_>) -> Result<Map, Fault> {
        let words = case.take()?;
        let shifts = case.take()?;
        Ok(Map { words, shifts })
    }
}

impl Map {
    fn lend(&self) -> (&[u64], &[i64]) {
        (self.words.as_slice(), self.shifts.as_slice())
    }
}

impl Values for Origin {
    fn say(self, line: &mut Line) -> Result<(), Fault> {
        line.value(self.source)?;
        line.value(self.frame)?;
        line.value(self.flag)?;
        line.value(self.shift)
    }
}

/// cut MAP A B ROOM ROOM
pub fn cut(case: &mut Case<'_>, line: &mut Line) -> Result<(), Fault> {
    let map: Map = case.take()?;
    let start = case.take()?;
    let end = case.take()?;
    let mut rows: Rows = case.take()?;
    case.end()?;
    let (words, shifts) = map.lend();
    let (out_words, out_shifts) = rows.lend();
    let answer = maps::cut(words, shifts, start, end, out_words, out_shifts);
    line.rows(answer, &rows)
}

/// join MAP MAP ROOM ROOM
pub fn join(case: &mut Case<'_>, line: &mut Line) -> Result<(), Fault> {
    let first: Map = case.take()?;
    let second: Map = case.take()?;
    let mut rows: Rows = case.take()?;
    case.end()?;
    let (words, shifts) = first.lend();
    let (second_words, second_shifts) = second.lend();
    let (out_words, out_shifts) = rows.lend();
    let answer = maps::join(
        words,
        shifts,
        second_words,
        second_shifts,
        out_words,
        out_shifts,
    );
    line.rows(answer, &rows)
}

/// merge MAP ROOM ROOM
pub fn merge(case: &mut Case<'_>, line: &mut Line) -> Result<(), Fault> {
    let map: Map = case.take()?;
    let mut rows: Rows = case.take()?;
    case.end()?;
    let (words, shifts) = map.lend();
    let (out_words, out_shifts) = rows.lend();
    let answer = maps::merge(words, shifts, out_words, out_shifts);
    line.rows(answer, &rows)
}

/// origin MAP FRAME
pub fn origin(case: &mut Case<'_>, line: &mut Line) -> Result<(), Fault> {
    let map: Map = case.take()?;
    let frame = case.take()?;
    case.end()?;
    let (words, shifts) = map.lend();
    line.answer(maps::origin(words, shifts, frame))
}

/// origins MAP FRAMES ROOM
pub fn origins(case: &mut Case<'_>, line: &mut Line) -> Result<(), Fault> {
    let map: Map = case.take()?;
    let frames: Vec<u64> = case.take()?;
    let mut out: Room<Origin> = case.take()?;
    case.end()?;
    let (words, shifts) = map.lend();
    let answer = maps::origins(words, shifts, frames.as_slice(), out.lend());
    line.answer(answer)?;
    line.origins(&out, answer.unwrap_or(0))
}

/// cuts MAP RANGES ROOM ROOM ROOM
pub fn cuts(case: &mut Case<'_>, line: &mut Line) -> Result<(), Fault> {
    let map: Map = case.take()?;
    let ranges: Vec<u64> = case.take()?;
    let mut rows: Rows = case.take()?;
    let mut counts: Room<u64> = case.take()?;
    case.end()?;
    let (words, shifts) = map.lend();
    let (out_words, out_shifts) = rows.lend();
    let answer = cuts::cuts(
        words,
        shifts,
        ranges.as_slice(),
        out_words,
        out_shifts,
        counts.lend(),
    );
    line.rows(answer, &rows)?;
    line.written(&counts, answer.map_or(0, |_| ranges.len() / 2))
}
