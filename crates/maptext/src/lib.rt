//! Frame maps, origins, refusals and faults as lines of text, for programs. Which bytes reach the
//! system no contract can say; these say by what a writer has grown whose bytes are known, where
//! writing succeeds. A write that fails is the answer, and what comes after it isn't written.
#![tactic(auto)]

ghost use Rattle.std.specs.Prelude.{Some, OnOk};
ghost use Rattle.std.specs.Io.KnownBytes.{Appends};
ghost use Rattle.maptext.specs.Lines.{refusal_line, fault_line, shift_text, row_line, origin_line};

use refusal::Refusal;
use rows::{Origin, ROW_WORDS, Row};
use std::fmt::{self, Display, Formatter};
use std::io::{self, Write};

// The end of a line: the shift, where the flag is 1.
#[derive(Clone, Copy)]
struct Shift {
    flag: u64,
    shift: i64,
}

impl Display for Shift {
    ghost output = { λ s. Some (shift_text s.flag s.shift) };

    fn fmt<W: fmt::Write>(&self, f: &mut Formatter<W>) -> fmt::Result {
        let Shift { flag, shift } = *self;
        if flag == 1 {
            write!(f, ", shift {shift}")
        } else {
            Ok(())
        }
    }
}

/// Writes a refusal, by its number and index.
pub fn write_refusal<W: Write>(out: &mut W, refusal: Refusal) -> io::Result<()>
    ensures { OnOk result (Appends (W.contents out.old) (W.contents out.new)
        (refusal_line refusal)) }
{
    let Refusal { reason, index } = refusal;
    writeln!(out, "refused {} at {index}", reason.number())
}

/// Writes what is wrong with a line, by its number.
pub fn write_fault<W: Write>(out: &mut W, line: usize, what: &str) -> io::Result<()>
    ensures { OnOk result (Appends (W.contents out.old) (W.contents out.new)
        (fault_line line what.now)) }
{
    writeln!(out, "line {line}: {what}")
}

// A row: its source, source frames, output frames, and its shift where it has one.
fn write_row<W: Write>(out: &mut W, row: Row) -> io::Result<()>
    ensures { OnOk result (Appends (W.contents out.old) (W.contents out.new) (row_line row)) }
{
    let Row {
        source,
        first,
        count,
        out: start,
        flag,
        shift,
    } = row;
    // neither sum wraps in a well-formed map
    let end = first.saturating_add(count);
    let out_end = start.saturating_add(count);
    let shift = Shift { flag, shift };
    writeln!(
        out,
        "source {source} frames {first}..{end} at {start}..{out_end}{shift}"
    )
}

/// Writes a map, a row a line: its words, five a row, and a shift a row (RULES 10.1).
pub fn write_map<W: Write>(out: &mut W, words: &[u64], shifts: &[i64]) -> io::Result<()> {
    let (rows, _) = words.as_chunks::<ROW_WORDS>();
    for (row, shift) in rows.iter().zip(shifts) {
        let [source, first, count, start, flag] = *row;
        let row = Row {
            source,
            first,
            count,
            out: start,
            flag,
            shift: *shift,
        };
        write_row(out, row)?;
    }
    Ok(())
}

/// Writes where a frame comes from, or why that isn't answered.
pub fn write_origin<W: Write>(
    out: &mut W,
    frame: u64,
    answer: Result<Origin, Refusal>,
) -> io::Result<()>
    ensures { OnOk result (Appends (W.contents out.old) (W.contents out.new)
        (origin_line frame answer)) }
{
    match answer {
        Ok(origin) => {
            let shift = Shift {
                flag: origin.flag,
                shift: origin.shift,
            };
            writeln!(
                out,
                "frame {frame} is frame {} of source {}{shift}",
                origin.frame, origin.source
            )
        }
        Err(refusal) => write_refusal(out, refusal),
    }
}
