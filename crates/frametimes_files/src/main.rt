//! Prints the frame times of each file that is named, as frametimes prints them, under a line
//! `NAME:`. The stored run is of the files in data/, which args names:
// M1: offsets and no edit.
// data/m1: tools/make-moov durations=10,10,10 offsets=10,30,0
// A moov whose size has 64 bits, cut short by its edit.
// data/large: tools/make-moov large durations=10*4 movie=1000 edit=10,250
// A moov after the mdat, whose edit starts a frame before 0.
// data/late: tools/make-moov mdat=200 durations=10*3 offsets=0,20,-15 edit=5,0
// A time-lapse: offsets of 2,400,000,000 in a ctts of version 0, and no edit.
// data/lapse: tools/make-moov movie=1000000000 scale=1000000000 durations=500000000*3 offsets=2400000000*3
// The same, and an edit at its first frame.
// data/lapse_edit: tools/make-moov movie=1000000000 scale=1000000000 durations=500000000*3 offsets=2400000000*3 edit=2400000000,0 version=1
// A file of one byte too many.
// data/30: tools/make-moov bytes=32769
// A file without a moov.
// data/31: tools/make-moov mdat=100 no-moov
// One frame more than there is room for.
// data/32: tools/make-moov durations=10*1025 pad=1000
// An empty edit that ends so late that no i64 holds where the last frame ends.
// data/33: tools/make-moov durations=10,10,10 version=1 empty=9223372036854775800 edit=0,0
// A file whose copy broke off within its moov.
// data/36: tools/make-moov mdat=100 cut=50
#![tactic(auto)]

use reading::{Buffered, Failure};
use std::io::Write;
use std::process::ExitCode;
use std::{env, fs, io};

// What frametimes prints of a file, under its name, which is there before the file is read.
fn print_named(rt: &HostRuntime, name: &str) -> Result<(), Failure> {
    let mut file = fs::open(rt, name).map_err(Failure::Input)?;
    let mut out = Buffered::new(io::writer(rt));
    writeln!(out, "{name}:").map_err(Failure::Output)?;
    out.flush().map_err(Failure::Output)?;
    frame_lines::run(&mut file, &mut out, &mut rt.stderr())
}

// Prints the files that are named, up to the first that can't be opened or read, or whose lines
// can't be written.
fn main(rt: HostRuntime) -> io::Result<ExitCode> {
    for name in env::args(&rt)?.skip(1) {
        match print_named(&rt, name.as_str()) {
            Ok(()) => {}
            Err(Failure::Input(error)) => {
                eprintln!(rt; "frametimes_files: {name}: {error}")?;
                return Ok(ExitCode::FAILURE);
            }
            Err(Failure::Output(_)) => return Ok(reading::say_unwritten(&rt)),
        }
    }
    Ok(ExitCode::SUCCESS)
}
