//! Prints the frame times of a file. Its stored run is M2: one edit, from time 10 on.
// stdin: tools/make-moov durations=10,10,10 offsets=10,30,0 edit=10,0
#![tactic(auto)]

use reading::{Buffered, Failure};
use std::io::{self, Read, Write};
use std::process::ExitCode;

// The frame times of an input; of one that can't be read to its end, that it can't.
fn answer<R: Read, W: Write, E: Write>(
    input: &mut R,
    out: &mut W,
    errors: &mut E,
) -> io::Result<()> {
    match frame_lines::run(input, out, errors) {
        Ok(()) => Ok(()),
        Err(Failure::Input(_)) => reading::write_unread(out),
        Err(Failure::Output(error)) => Err(error),
    }
}

fn main(rt: HostRuntime) -> ExitCode {
    let mut out = Buffered::new(io::writer(&rt));
    match answer(&mut rt.reader(), &mut out, &mut rt.stderr()) {
        Ok(()) => ExitCode::SUCCESS,
        Err(_) => reading::say_unwritten(&rt),
    }
}
