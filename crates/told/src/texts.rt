//! What was read of a table's text, as a struct of C's layout.
ghost use Rattle.told.specs.Told.{read_words};

use crate::Word;
use table_text::Read;

/// What was read of a table's text.
#[repr(C)]
#[derive(Clone, Copy)]
pub struct TableRead {
    /// How many frames the table has.
    pub frames: u64,
    /// How many sources it has; thirteen words each are written.
    pub sources: u64,
    /// How many segments it has; five words and seven stamps each are written.
    pub segments: u64,
    /// How many bytes its creation times have, which are all written.
    pub dates: u64,
    /// 1 where it names a telemetry log, else 0.
    pub log: u64,
}

impl Word for Read {
    type Word = TableRead;

    ghost word = { read_words };

    fn word(self) -> TableRead {
        TableRead {
            frames: self.frames,
            sources: self.sources as u64,
            segments: self.segments as u64,
            dates: self.dates as u64,
            log: self.log as u64,
        }
    }
}
