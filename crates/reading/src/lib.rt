//! What the programs read, and what they say where they can't read or write, or where a call
//! refuses. Which bytes the system gives no contract can say; these say how many bytes of the room
//! are held, and of a reader or a writer whose bytes are known, which come next.
#![tactic(auto)]

ghost use Rattle.std.specs.Prelude.{◌≡◌, ◌<◌, ◌≤◌, ◌++◌, ◌∷◌, [], length, take, IfSome, OnOk};
ghost use Rattle.std.specs.Option.{IsNone};
ghost use Rattle.std.specs.Io.KnownBytes.{Appends, Consumes, IsAtEnd};
ghost use Rattle.refusal.specs.Words.{refusal_text};
ghost use Rattle.reading.specs.Held.{IsPrefixLen};
ghost use Rattle.reading.specs.declared.Ending.TheVariants.{Within};

use refusal::Refusal;
use std::io::{self, Read, Write};
use std::process::ExitCode;

/// The exit status of a program whose output can't be written.
const UNWRITTEN: u8 = 2;

/// Why a program ends before its last line.
#[derive(Debug, Drop)]
pub enum Failure {
    /// What it was to answer can't be read, or memory is lacking for it.
    Input(io::Error),
    /// What it answers can't be written.
    Output(io::Error),
}

// How far reading came: how many bytes are held, and the error that stopped it, where one did.
#[derive(Drop)]
struct Progress {
    held: usize,
    error: Option<io::Error>,
}

/// Where the input ends.
#[derive(Debug, Drop)]
pub enum Ending {
    /// Within the room lent, or right at its end.
    Within,
    /// Past the room lent: one byte more was there.
    Past,
    /// Nowhere that is known: a read failed, with this error.
    Failed(io::Error),
}

/// The input, as far as it is held.
#[derive(Debug, Drop)]
pub struct HeldInput {
    /// How many bytes of the room are held.
    pub held: usize,
    /// Where the input ends.
    pub end: Ending,
}

/// How many bytes wait before a writer.
const WAITING: usize = 4096;

/// A writer behind room on the stack: what is written waits there until it is full, or flushed. So
/// a line takes no call of the system for each of its parts.
#[derive(Drop)]
pub struct Buffered<W> {
    inner: W,
    room: [u8; WAITING],
    held: usize,
    ghost within: { held ≤ 4096 },
}

impl<W: Write> Buffered<W> {
    /// Nothing waits yet.
    pub fn new(inner: W) -> Buffered<W> {
        Buffered {
            inner,
            room: [0; WAITING],
            held: 0,
        }
    }

    // What waits is written.
    fn pass_on(&mut self) -> io::Result<()> {
        let held = self.held;
        self.held = 0;
        self.inner.write_all(&self.room[..held])
    }
}

impl<W: Write> Write for Buffered<W> {
    fn write(&mut self, bytes: &[u8]) -> io::Result<usize> {
        if self.held == WAITING {
            self.pass_on()?;
        }
        let held = self.held;
        let taken = bytes.len().min(WAITING - held);
        self.room[held..held + taken].copy_from_slice(&bytes[..taken]);
        self.held = held + taken;
        Ok(taken)
    }

    fn flush(&mut self) -> io::Result<()> {
        self.pass_on()?;
        self.inner.flush()
    }
}

// Reads until the room is full, the input ends, or a read fails. `read_exact` does the same, but
// doesn't tell how many bytes came before the end.
fn fill<R: Read>(input: &mut R, room: &mut [u8]) -> Progress
    ensures held { IsPrefixLen result.held room.new }
    ensures bytes { Consumes (R.remaining input.old) (R.remaining input.new)
        (take result.held room.new) }
    ensures end { IsNone result.error → result.held < length room.new
        → IsAtEnd (R.remaining input.new) }
{
    let mut held = 0;
    while held < room.len() {
        match input.read(&mut room[held..]) {
            Ok(0) => break,
            Ok(more) => held += more,
            Err(error) => {
                return Progress {
                    held,
                    error: Some(error),
                };
            }
        }
    }
    Progress { held, error: None }
}

// How the input ends after the room is full: one byte more is asked for.
#[tactic(auto, using(crate::proofs::Known::none_left))]
fn after_full<R: Read>(input: &mut R) -> Ending
    ensures { result ≡ Within → IsAtEnd (R.remaining input.old) }
{
    let Progress { held, error } = fill(input, &mut [0]);
    if let Some(error) = error {
        return Ending::Failed(error);
    }
    if held == 0 {
        return Ending::Within;
    }
    Ending::Past
}

/// Reads the whole input, where it has room: the bytes are the first ones of `room`.
#[tactic(auto, using(crate::proofs::Known::all_held))]
pub fn read_input<R: Read>(input: &mut R, room: &mut [u8]) -> HeldInput
    ensures held { IsPrefixLen result.held room.new }
    ensures whole { result.end ≡ Within
        → IfSome (R.remaining input.old) (λ xs. take result.held room.new ≡ xs) }
{
    let Progress { held, error } = fill(input, room);
    let end = match error {
        Some(error) => Ending::Failed(error),
        None if held < room.len() => Ending::Within,
        None => after_full(input),
    };
    HeldInput { held, end }
}

/// Writes the line of a standard input that can't be read, and flushes.
pub fn write_unread<W: Write>(out: &mut W) -> io::Result<()> {
    writeln!(out, "cannot read standard input")?;
    out.flush()
}

// Writes a refusal in words, on a line.
fn write_words<W: Write>(out: &mut W, refusal: Refusal) -> io::Result<()>
    ensures { OnOk result (Appends (W.contents out.old) (W.contents out.new)
        (refusal_text refusal ++ 10 ∷ [])) }
{
    writeln!(out, "{refusal}")
}

/// Says in words, on a writer for people, a refusal whose line was written to `out`. That line goes
/// out first, so that the two stand in order where both end in one place. The line is the answer:
/// where the words can't be written, nothing else changes.
pub fn say_refused<W: Write, E: Write>(
    out: &mut W,
    errors: &mut E,
    refusal: Refusal,
) -> io::Result<()> {
    out.flush()?;
    let _ = write_words(errors, refusal);
    Ok(())
}

/// Says on standard error that standard output can't be written. The program's exit status is 2
/// then; where standard error can't be written either, it alone tells.
pub fn say_unwritten(rt: &impl Eprint) -> ExitCode {
    let _ = eprintln!(rt; "cannot write standard output");
    ExitCode::from(UNWRITTEN)
}
