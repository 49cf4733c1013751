//! Frame times as text: a line of numbers, and where each frame starts, one a line (RULES 12).
//! Which bytes reach the system no contract can say; these say by what a writer has grown whose
//! bytes are known, where writing succeeds.
#![tactic(auto)]

ghost use Rattle.std.specs.Prelude.{Some, ◌++◌, ◌∷◌, [], OnOk};
ghost use Rattle.std.specs.Io.KnownBytes.{Appends};
ghost use Rattle.time_lines.specs.Lines.{start_lines, head_line, times_text};

use std::fmt::{self, Display, Formatter};
use std::io::{self, Write};

/// Where frames start, in ticks, one a line.
#[derive(Clone, Copy, Debug, PartialEq)]
pub struct Starts<'a> {
    /// One a frame.
    pub starts: &'a [i64],
}

impl Display for Starts<'_> {
    ghost output = { λ s. Some (start_lines s.starts.now) };

    fn fmt<W: fmt::Write>(&self, f: &mut Formatter<W>) -> fmt::Result {
        for start in self.starts {
            writeln!(f, "{start}")?;
        }
        Ok(())
    }
}

/// The line of numbers.
#[derive(Clone, Copy, Debug, PartialEq, Eq)]
pub struct Head {
    /// How many frames there are.
    pub frames: usize,
    /// Ticks a second.
    pub scale: u64,
    /// A frame's nominal duration, in ticks.
    pub nominal: i64,
    /// Where the last frame ends, in ticks.
    pub end: i64,
}

impl Display for Head {
    ghost output = { λ h. Some (head_line h.frames h.scale h.nominal h.end) };

    fn fmt<W: fmt::Write>(&self, f: &mut Formatter<W>) -> fmt::Result {
        let Head {
            frames,
            scale,
            nominal,
            end,
        } = *self;
        writeln!(
            f,
            "frames {frames} timescale {scale} nominal {nominal} end {end}"
        )
    }
}

/// Writes a title, the line of numbers, and where frames start.
pub fn write_times<W: Write>(out: &mut W, title: &str, head: Head, starts: &[i64]) -> io::Result<()>
    ensures { OnOk result (Appends (W.contents out.old) (W.contents out.new)
        (title.now ++ times_text head starts.now)) }
{
    write!(out, "{title}{head}{}", Starts { starts })
}
