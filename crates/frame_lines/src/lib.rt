//! What the programs frametimes and frametimes_files print of a file from a reader: RULES 12.
#![tactic(auto)]

ghost use Rattle.frame_times.specs.Times.{room};
ghost use Rattle.frame_times.specs.KeptFrames.{OutcomeAnswered};
ghost use Rattle.frame_lines.specs.Files.{file_times};

use boxes::read::code;
use boxes::{Place, find_box_place};
use frame_times::video_frame_times_of_moov;
use reading::{Ending, Failure, HeldInput};
use refusal::{Reason, Refusal};
use std::io::{self, Read, Write};
use ticks::FrameTimes;
use time_lines::Head;

// How many bytes a file may have; a longer one is refused with 30.
const FILE_BYTES: usize = 32_768;

// The frame times of a file's first moov, with composition offsets by the standard.
#[tactic(auto, using(boxes::proofs::Within::found_ends))]
fn times_of_file(
    file: &[u8],
    starts: &mut [i64],
    first_work: &mut [i64],
    second_work: &mut [i64],
) -> Result<FrameTimes, Refusal>
    ensures { OutcomeAnswered
        (file_times file.now (room starts.old first_work.old second_work.old)) result
        starts.old starts.new }
{
    let Place { start, len } = find_box_place(file, 0, file.len(), code(b"moov"), true)?;
    video_frame_times_of_moov(
        &file[start..start + len],
        true,
        starts,
        first_work,
        second_work,
    )
}

// The line of a refusal.
fn write_refusal<W: Write>(out: &mut W, reason: Reason) -> io::Result<()> {
    let number = reason.number();
    writeln!(out, "refused {number}")
}

// The line of a call's refusal, and its words.
fn say_refusal<W: Write, E: Write>(
    out: &mut W,
    errors: &mut E,
    refusal: Refusal,
) -> io::Result<()> {
    write_refusal(out, refusal.reason)?;
    reading::say_refused(out, errors, refusal)
}

// The line of a file that is too long, and its words: those of the reason have the calls' limit.
fn say_too_long<W: Write, E: Write>(out: &mut W, errors: &mut E) -> io::Result<()> {
    write_refusal(out, Reason::TooLong)?;
    out.flush()?;
    let _ = writeln!(errors, "the file has over {FILE_BYTES} bytes");
    Ok(())
}

// The line of numbers, and a start a line.
fn write_times<W: Write>(out: &mut W, times: FrameTimes, starts: &[i64]) -> io::Result<()> {
    let FrameTimes {
        frames,
        scale,
        nominal,
        end,
    } = times;
    let head = Head {
        frames,
        scale,
        nominal,
        end,
    };
    // there are no more frames than starts
    let shown = frames.min(starts.len());
    time_lines::write_times(out, "", head, &starts[..shown])
}

// All lines for a file, with room for 1,024 frames.
fn write_file<W: Write, E: Write>(out: &mut W, errors: &mut E, file: &[u8]) -> io::Result<()> {
    let mut starts = [0i64; 1024];
    let mut first_work = [0i64; 1024];
    let mut second_work = [0i64; 1024];
    match times_of_file(file, &mut starts, &mut first_work, &mut second_work) {
        Ok(times) => write_times(out, times, &starts),
        Err(refusal) => say_refusal(out, errors, refusal),
    }
}

/// Writes the lines of RULES 12 for a file of at most 32,768 bytes, and flushes: its frames and
/// times, or `refused` and a number; 30 for a longer one. What refuses it is said in words on
/// `errors`. Where it can't be read to its end nothing is written: what was read of it has no frame
/// times.
pub fn run<R: Read, W: Write, E: Write>(
    input: &mut R,
    out: &mut W,
    errors: &mut E,
) -> Result<(), Failure> {
    let mut file = [0u8; FILE_BYTES];
    let HeldInput { held, end } = reading::read_input(input, &mut file);
    let written = match end {
        Ending::Within => write_file(out, errors, &file[..held]),
        Ending::Past => say_too_long(out, errors),
        Ending::Failed(error) => return Err(Failure::Input(error)),
    };
    written.map_err(Failure::Output)?;
    out.flush().map_err(Failure::Output)
}
