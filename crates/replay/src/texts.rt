//! Tables' texts.
use crate::case::{Argument, Bytes, Case, Fault};
use crate::lent::Room;
use crate::line::{Line, Values};
use refusal::Refusal;
use table::layout::{STAMPS, WORDS};
use table_text::Read;

// How many words a source has.
const SOURCE_WORDS: usize = 13;

impl Values for Read {
    fn say(self, line: &mut Line) -> Result<(), Fault> {
        line.value(self.frames)?;
        line.value(self.sources)?;
        line.value(self.segments)?;
        line.value(self.dates)?;
        self.log.say(line)
    }
}

// The slices that a table is written over: the words of its sources, the words and the stamps of its
// segments, and the bytes of its creation times.
#[derive(Drop)]
struct Parts {
    sources: Room<u64>,
    words: Room<u64>,
    stamps: Room<i64>,
    dates: Room<u8>,
}

impl Argument for Parts {
    fn read(case: &mut Case<'_>) -> Result<Parts, Fault> {
        let sources = case.take()?;
        let words = case.take()?;
        let stamps = case.take()?;
        let dates = case.take()?;
        Ok(Parts {
            sources,
            words,
            stamps,
            dates,
        })
    }
}

// What was read, and the table that was written; a refusal writes none.
fn say_table(line: &mut Line, answer: Result<Read, Refusal>, parts: &Parts) -> Result<(), Fault> {
    line.answer(answer)?;
    let sources = answer.map_or(0, |read| read.sources);
    let segments = answer.map_or(0, |read| read.segments);
    line.written(&parts.sources, sources.saturating_mul(SOURCE_WORDS))?;
    line.written(&parts.words, segments.saturating_mul(WORDS))?;
    line.written(&parts.stamps, segments.saturating_mul(STAMPS))?;
    line.bytes(&parts.dates, answer.map_or(0, |read| read.dates))
}

/// read_table BYTES ROOM ROOM ROOM ROOM ROOM
pub fn read_table(case: &mut Case<'_>, line: &mut Line) -> Result<(), Fault> {
    let Bytes(text) = case.take()?;
    let mut parts: Parts = case.take()?;
    let mut work: Room<u64> = case.take()?;
    case.end()?;
    let answer = table_meaning::read_table(
        text.as_slice(),
        parts.sources.lend(),
        parts.words.lend(),
        parts.stamps.lend(),
        parts.dates.lend(),
        work.lend(),
    );
    line.cleared(&work);
    say_table(line, answer, &parts)
}
