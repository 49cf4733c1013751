//! replay FILE..: the library's calls on stored cases. A file has a case a line, and each line is
//! answered by one. In the stored run the files are those of data/, and stdout has the answers that
//! they are held to, one file after the other (compare/README.md).
#![tactic(auto)]

mod case;
mod cutting;
mod judging;
mod lent;
mod line;
mod listed;
mod numbers;
mod places;
mod tables;
mod texts;
mod times;

use case::{Case, Fault};
use line::Line;
use reading::Failure;
use std::alloc::{AllocError, Global};
use std::io::{BufRead, BufReader, BufWriter, Write};
use std::process::ExitCode;
use std::rt::Files;
use std::{env, fs, io, str};

// The call that a case names, of its arguments.
fn call(case: &mut Case<'_>, line: &mut Line) -> Result<(), Fault> {
    match str::from_utf8(case.word()).or(Err(Fault::Malformed))? {
        "is_utc_second" => numbers::is_utc_second(case, line),
        "ticks_to_us" => numbers::ticks_to_us(case, line),
        "box_size" => places::box_size(case, line),
        "children" => places::children(case, line),
        "child" => places::child(case, line),
        "find_box" => places::find_box(case, line),
        "table_text" => places::table_text(case, line),
        "cut" => cutting::cut(case, line),
        "cuts" => cutting::cuts(case, line),
        "join" => cutting::join(case, line),
        "merge" => cutting::merge(case, line),
        "origin" => cutting::origin(case, line),
        "origins" => cutting::origins(case, line),
        "video_frame_times_of_moov" => times::video_frame_times_of_moov(case, line),
        "mcraw_times" => times::mcraw_times(case, line),
        "check" => tables::check(case, line),
        "segment_of_frame" => tables::segment_of_frame(case, line),
        "segment_of_frame_records" => tables::segment_of_frame_records(case, line),
        "segments_of_frames" => tables::segments_of_frames(case, line),
        "segment_of_time_us" => tables::segment_of_time_us(case, line),
        "continues" => tables::continues(case, line),
        "rows_of_table" => tables::rows_of_table(case, line),
        "read_table" => texts::read_table(case, line),
        "validate_no_video" => judging::validate_no_video(case, line),
        "validate_constant" => judging::validate_constant(case, line),
        "validate_times" => judging::validate_times(case, line),
        "check_mcraw" => judging::check_mcraw(case, line),
        _ => Err(Fault::Malformed),
    }
}

// The line of the answer to a case, malformed where it is none.
fn answer(alloc: Global, text: &[u8]) -> Result<String, AllocError> {
    let mut line = Line::new(alloc);
    match call(&mut Case::new(alloc, text), &mut line) {
        Ok(()) => line.ended(),
        Err(Fault::Malformed) => "malformed".to_string(alloc),
        Err(Fault::OutOfMemory) => Err(AllocError),
    }
}

// Answers all cases of a file, a line each. They are bytes: one that is no text is malformed, and
// those after it are answered.
fn replay<R: Files + AllocGlobal + Print>(rt: &R, name: &str) -> Result<(), Failure> {
    let file = fs::open(rt, name).map_err(Failure::Input)?;
    let cases = BufReader::new(rt.alloc(), file).map_err(Failure::Input)?;
    let mut out = BufWriter::new(rt.alloc(), io::writer(rt)).map_err(Failure::Input)?;
    for case in cases.split(rt.alloc(), b'\n') {
        let case = case.map_err(Failure::Input)?;
        let line = answer(rt.alloc(), case.as_slice()).map_err(lacking)?;
        writeln!(out, "{line}").map_err(Failure::Output)?;
    }
    out.flush().map_err(Failure::Output)
}

// Memory that is lacking for an answer.
fn lacking(error: AllocError) -> Failure {
    Failure::Input(io::Error::from(error))
}

// Answers the files that are named, up to the first that can't be opened or read, or whose answers
// can't be written.
fn main(rt: HostRuntime) -> io::Result<ExitCode> {
    for name in env::args(&rt)?.skip(1) {
        match replay(&rt, name.as_str()) {
            Ok(()) => {}
            Err(Failure::Input(error)) => {
                eprintln!(rt; "replay: {name}: {error}")?;
                return Ok(ExitCode::FAILURE);
            }
            Err(Failure::Output(_)) => return Ok(reading::say_unwritten(&rt)),
        }
    }
    Ok(ExitCode::SUCCESS)
}
