//! The first lesson: steps on a frame map, one a line on standard input, and what each gives.
//!
//!     row SOURCE FIRST COUNT [shift SHIFT]   the map with a row more; its out first is chained
//!     cut A B                                the frames A to B of the map
//!     join                                   the rows that follow, up to another step, are a
//!                                            second map, joined to the first
//!     merge                                  one row of neighbours that continue
//!     origin FRAME                           where a frame comes from
//!
//! Every map goes through the proved calls, and every refusal is theirs, that of a 1,025th row too;
//! this program only holds the rows and prints. A refusal is printed by its number, and said in
//! words on standard error.
#![tactic(auto)]

ghost use Rattle.std.specs.Prelude.{ℕ, ◌≤◌, Ok};
ghost use Rattle.maps.specs.Answers.{most_rows};

use maps::MOST_ROWS;
use reading::{Buffered, Ending, HeldInput};
use refusal::Refusal;
use rows::{Origin, ROW_WORDS, Row};
use std::io::{self, Read, Write};
use std::process::ExitCode;
use steps::{Fault, Step};

// How many bytes of the input are read.
const FILE_BYTES: usize = 65_536;

// The words of as many rows as a map may have.
const MOST_WORDS: usize = ROW_WORDS * MOST_ROWS;

// A frame map: the words of its rows, a shift a row, and how many rows it has. What lies past them
// is no part of it.
#[derive(Drop)]
struct Map {
    words: [u64; MOST_WORDS],
    shifts: [i64; MOST_ROWS],
    rows: usize,
    ghost few: { rows ≤ most_rows },
}

#[tactic(auto, using(crate::proofs::Few::few))]
impl Map {
    // A map of no rows.
    fn empty() -> Map {
        Map {
            words: [0; MOST_WORDS],
            shifts: [0; MOST_ROWS],
            rows: 0,
        }
    }

    // A map of one row, not yet tested.
    fn of_row(row: Row) -> Map {
        let mut map = Map::empty();
        let words = [row.source, row.first, row.count, row.out, row.flag];
        map.words[..ROW_WORDS].copy_from_slice(&words);
        map.shifts[0] = row.shift;
        map.rows = 1;
        map
    }

    // The map that a call writes over lent words and shifts, of as many rows as it answers; or its
    // refusal.
    fn written<F>(call: F) -> Result<Map, Refusal>
    where
        F: FnOnce(&mut [u64], &mut [i64]) -> Result<usize, Refusal>,
        requires callable { F.IsAlwaysCallable call }
        requires few { (words shifts : _) (rows : ℕ) (words' shifts' : _)
            → F.post call words shifts (Ok rows) words' shifts'
            → rows ≤ most_rows }
    {
        let mut words = [0; MOST_WORDS];
        let mut shifts = [0; MOST_ROWS];
        let rows = call(&mut words, &mut shifts)?;
        Ok(Map {
            words,
            shifts,
            rows,
        })
    }

    // The words of its rows.
    fn words(&self) -> &[u64] {
        &self.words[..ROW_WORDS * self.rows]
    }

    // Their shifts.
    fn shifts(&self) -> &[i64] {
        &self.shifts[..self.rows]
    }

    // The frames from start to end.
    fn cut(&self, start: u64, end: u64) -> Result<Map, Refusal> {
        Map::written(|words, shifts| {
            maps::cut(self.words(), self.shifts(), start, end, words, shifts)
        })
    }

    // The frames of this map, and after them those of the second.
    fn join(&self, second: &Map) -> Result<Map, Refusal> {
        Map::written(|words, shifts| {
            maps::join(
                self.words(),
                self.shifts(),
                second.words(),
                second.shifts(),
                words,
                shifts,
            )
        })
    }

    // The same frames, with one row of neighbours that continue.
    fn merge(&self) -> Result<Map, Refusal> {
        Map::written(|words, shifts| maps::merge(self.words(), self.shifts(), words, shifts))
    }

    // Where a frame comes from.
    fn origin(&self, frame: u64) -> Result<Origin, Refusal> {
        maps::origin(self.words(), self.shifts(), frame)
    }

    // This map with a row more. Nothing joins a map of no rows, so that the first row is tested by
    // a merge of it alone.
    fn with_row(&self, row: Row) -> Result<Map, Refusal> {
        let row = Map::of_row(row);
        if self.rows == 0 {
            row.merge()
        } else {
            self.join(&row)
        }
    }

    // A call's answer: its map takes this one's place and is written, or its refusal is written.
    fn keep<W: Write, E: Write>(
        &mut self,
        out: &mut W,
        errors: &mut E,
        answer: Result<Map, Refusal>,
    ) -> io::Result<()> {
        match answer {
            Ok(map) => {
                *self = map;
                maptext::write_map(out, self.words(), self.shifts())
            }
            Err(refusal) => {
                maptext::write_refusal(out, refusal)?;
                reading::say_refused(out, errors, refusal)
            }
        }
    }
}

// The map, and the second map of a join that waits for its rows. What is written goes to `out`, and
// a refusal's words to `errors`.
#[derive(Drop)]
struct Lesson {
    map: Map,
    second: Option<Map>,
}

impl Lesson {
    // Before the first line.
    fn new() -> Lesson {
        Lesson {
            map: Map::empty(),
            second: None,
        }
    }

    // A row goes to the second map of a join that waits for its rows, else to the map.
    fn add<W: Write, E: Write>(&mut self, out: &mut W, errors: &mut E, row: Row) -> io::Result<()> {
        write_row_step(out, row)?;
        let map = match &mut self.second {
            Some(second) => second,
            None => &mut self.map,
        };
        let answer = map.with_row(row);
        map.keep(out, errors, answer)
    }

    // The map is cut.
    fn cut<W: Write, E: Write>(
        &mut self,
        out: &mut W,
        errors: &mut E,
        start: u64,
        end: u64,
    ) -> io::Result<()> {
        self.finish_join(out, errors)?;
        writeln!(out, "cut {start} {end}:")?;
        self.map.keep(out, errors, self.map.cut(start, end))
    }

    // The map is merged.
    fn merge<W: Write, E: Write>(&mut self, out: &mut W, errors: &mut E) -> io::Result<()> {
        self.finish_join(out, errors)?;
        writeln!(out, "merge:")?;
        self.map.keep(out, errors, self.map.merge())
    }

    // A frame's origin in the map is said.
    fn origin<W: Write, E: Write>(
        &mut self,
        out: &mut W,
        errors: &mut E,
        frame: u64,
    ) -> io::Result<()> {
        self.finish_join(out, errors)?;
        let answer = self.map.origin(frame);
        maptext::write_origin(out, frame, answer)?;
        match answer {
            Ok(_) => Ok(()),
            Err(refusal) => reading::say_refused(out, errors, refusal),
        }
    }

    // A join begins, and waits for its rows.
    fn begin_join<W: Write, E: Write>(&mut self, out: &mut W, errors: &mut E) -> io::Result<()> {
        self.finish_join(out, errors)?;
        writeln!(out, "join:")?;
        self.second = Some(Map::empty());
        Ok(())
    }

    // A join that waits for its rows is made.
    fn finish_join<W: Write, E: Write>(&mut self, out: &mut W, errors: &mut E) -> io::Result<()> {
        if let Some(second) = self.second.take() {
            writeln!(out, "joined:")?;
            self.map.keep(out, errors, self.map.join(&second))?;
        }
        Ok(())
    }

    // One line, by its number.
    fn line<W: Write, E: Write>(
        &mut self,
        out: &mut W,
        errors: &mut E,
        number: usize,
        text: &[u8],
    ) -> io::Result<()> {
        match steps::parse(text) {
            Ok(Some(step)) => self.step(out, errors, step),
            Ok(None) => Ok(()),
            Err(Fault::Unknown) => maptext::write_fault(out, number, "not a step"),
            Err(Fault::Large) => maptext::write_fault(out, number, "a number over 64 bits"),
        }
    }

    // One step.
    fn step<W: Write, E: Write>(
        &mut self,
        out: &mut W,
        errors: &mut E,
        step: Step,
    ) -> io::Result<()> {
        match step {
            Step::Row {
                source,
                first,
                count,
                shift,
            } => {
                let row = Row {
                    source,
                    first,
                    count,
                    out: 0,
                    flag: shift.is_some() as u64,
                    shift: shift.unwrap_or(0),
                };
                self.add(out, errors, row)
            }
            Step::Cut { start, end } => self.cut(out, errors, start, end),
            Step::Origin(frame) => self.origin(out, errors, frame),
            Step::Join => self.begin_join(out, errors),
            Step::Merge => self.merge(out, errors),
        }
    }

    // Every line of a text. A join may still wait for its rows at the end.
    fn run<W: Write, E: Write>(
        mut self,
        out: &mut W,
        errors: &mut E,
        text: &[u8],
    ) -> io::Result<()> {
        for (index, line) in text.split_inclusive(is_line_feed).enumerate() {
            self.line(
                out,
                errors,
                index + 1,
                line.strip_suffix(b"\n").unwrap_or(line),
            )?;
        }
        self.finish_join(out, errors)
    }
}

// Whether a byte ends a line.
fn is_line_feed(byte: &u8) -> bool {
    *byte == b'\n'
}

// A row step above the map that it gives.
fn write_row_step<W: Write>(out: &mut W, row: Row) -> io::Result<()> {
    let Row {
        source,
        first,
        count,
        flag,
        shift,
        ..
    } = row;
    if flag == 1 {
        writeln!(out, "row {source} {first} {count} shift {shift}:")
    } else {
        writeln!(out, "row {source} {first} {count}:")
    }
}

// The whole lines of an input that is too long, and that it is. What comes after them is left
// unread: an input may never end.
fn too_long<W: Write, E: Write>(out: &mut W, errors: &mut E, text: &[u8]) -> io::Result<()> {
    let end = text
        .iter()
        .rposition(is_line_feed)
        .map_or(0, |last| last + 1);
    let whole = &text[..end];
    Lesson::new().run(out, errors, whole)?;
    let lines = whole.split_inclusive(is_line_feed).count();
    maptext::write_fault(out, lines + 1, "the input is too long")
}

// The lines of an input; of one that can't be read to its end, none.
fn answer<R: Read, W: Write, E: Write>(
    input: &mut R,
    out: &mut W,
    errors: &mut E,
) -> io::Result<()> {
    let mut file = [0u8; FILE_BYTES];
    let HeldInput { held, end } = reading::read_input(input, &mut file);
    let text = &file[..held];
    match end {
        Ending::Within => Lesson::new().run(out, errors, text)?,
        Ending::Past => too_long(out, errors, text)?,
        Ending::Failed(_) => reading::write_unread(out)?,
    }
    out.flush()
}

// The lines of standard input.
fn main(rt: HostRuntime) -> ExitCode {
    let mut out = Buffered::new(io::writer(&rt));
    match answer(&mut rt.reader(), &mut out, &mut rt.stderr()) {
        Ok(()) => ExitCode::SUCCESS,
        Err(_) => reading::say_unwritten(&rt),
    }
}

#[cfg(test)]
mod tests {
    use super::*;
    use std::io::Cursor;
    use std::test::Fail;

    // Steps of each kind, and refusals, faults and a join that waits at the end.
    const STEPS: &[u8] = b"row 0 10 30\nrow 1 5 20 shift -5\ncut 25 40\norigin 2\norigin 99\n\
        cut 9 9\nrows\nrow 0 0 18446744073709551616\nmerge\njoin\nrow 0 1 1";

    // Writing that fails after any number of bytes is an error.
    #[test]
    fn a_failed_write_is_told(rt: HostRuntime) -> Result<(), Fail> {
        let mut room = Cursor::new([0; 1024]);
        Lesson::new().run(&mut room, &mut io::sink(), STEPS)?;
        let whole = room.position();
        assert!(rt; whole < 1024);
        for length in 0..1024 {
            let mut bytes = [0; 1024];
            let answer = Lesson::new().run(&mut &mut bytes[..length], &mut io::sink(), STEPS);
            assert_eq!(rt; answer.is_ok(), whole <= length as u64);
        }
        Ok(())
    }

    // Rows whose maps take more than waits before a writer.
    const ROWS: &[u8] = b"row 0 0 1\nrow 1 0 1\nrow 2 0 1\nrow 3 0 1\nrow 4 0 1\nrow 5 0 1\n\
        row 0 0 1\nrow 1 0 1\nrow 2 0 1\nrow 3 0 1\nrow 4 0 1\nrow 5 0 1\nrow 0 0 1\n\
        row 1 0 1\nrow 2 0 1\nrow 3 0 1\nrow 4 0 1\nrow 5 0 1\n";

    // So is one of what waits, in the middle or at the end.
    #[test]
    fn a_failed_write_of_what_waits_is_told(rt: HostRuntime) -> Result<(), Fail> {
        let mut room = Cursor::new([0; 8192]);
        answer(&mut &ROWS[..], &mut room, &mut io::sink())?;
        let whole = room.position();
        assert!(rt; 4096 < whole && whole < 8192);
        for length in 0..8192 {
            let mut bytes = [0; 8192];
            let mut out = Buffered::new(&mut bytes[..length]);
            let answer = answer(&mut &ROWS[..], &mut out, &mut io::sink());
            assert_eq!(rt; answer.is_ok(), whole <= length as u64);
        }
        Ok(())
    }
}
