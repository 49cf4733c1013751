// Reading a table's text into lent slices: first all of it is decided, then it is written.
ghost use Rattle.std.specs.Prelude.{◌≡◌, ◌*◌, length, replicate};
ghost use Rattle.table_text.specs.Layout.{Holds};
ghost use Rattle.table_text.specs.Read.{judged_of, plan_of, read_of, left_by, source_words, segment_words, segment_stamps, date_bytes};

use crate::puts::{put_segments, put_sources};
use crate::staging::{Staged, stage};
use refusal::{Reason, Refusal};

/// What was read.
#[derive(Clone, Copy)]
pub struct Read {
    /// How many frames the table has.
    pub frames: u64,
    /// How many sources: thirteen words each were written.
    pub sources: usize,
    /// How many segments: five words and seven stamps each.
    pub segments: usize,
    /// How many bytes its sources' creation times have.
    pub dates: usize,
    /// Whether it names a telemetry log.
    pub log: bool,
}

/// How much is lent.
#[derive(Clone, Copy)]
pub struct Room {
    /// How many words for sources.
    pub sources: usize,
    /// How many words for segments.
    pub words: usize,
    /// How many stamps for them.
    pub stamps: usize,
    /// How many bytes for creation times.
    pub dates: usize,
    /// How many words of working room.
    pub work: usize,
}

// 32, and then 3 to 17.
#[tactic(auto, unfolding(crate::specs::Read::judged_of))]
fn judged(text: &[u8], room: Room, staged: Staged, work: &[u64]) -> Result<u64, Refusal>
    requires { Holds text.now staged work.now }
    ensures { result ≡ judged_of text.now room staged }
{
    if ((room.sources < 13 * staged.sources) | (room.words < 5 * staged.segments))
        | ((room.stamps < 7 * staged.segments) | (room.dates < staged.dates))
    {
        return Err(Reason::NoRoom.at(0));
    }
    staged.table(text, work).check()
}

// The reading, which leaves the working room as it may.
#[tactic(auto, unfolding(crate::specs::Read::plan_by, crate::specs::Read::planned_by, crate::specs::Read::read_of, crate::specs::Read::left_by))]
fn read_into(
    text: &[u8],
    sources: &mut [u64],
    words: &mut [u64],
    stamps: &mut [i64],
    dates: &mut [u8],
    work: &mut [u64],
) -> Result<Read, Refusal>
    ensures answer { result ≡ read_of (plan_of text.now (record {
      sources = length sources.old;
      words = length words.old;
      stamps = length stamps.old;
      dates = length dates.old;
      work = length work.old;
    })) }
    ensures sources_left { sources.new ≡ left_by (plan_of text.now (record {
      sources = length sources.old;
      words = length words.old;
      stamps = length stamps.old;
      dates = length dates.old;
      work = length work.old;
    })) (source_words text.now) sources.old }
    ensures words_left { words.new ≡ left_by (plan_of text.now (record {
      sources = length sources.old;
      words = length words.old;
      stamps = length stamps.old;
      dates = length dates.old;
      work = length work.old;
    })) (segment_words text.now) words.old }
    ensures stamps_left { stamps.new ≡ left_by (plan_of text.now (record {
      sources = length sources.old;
      words = length words.old;
      stamps = length stamps.old;
      dates = length dates.old;
      work = length work.old;
    })) (segment_stamps text.now) stamps.old }
    ensures dates_left { dates.new ≡ left_by (plan_of text.now (record {
      sources = length sources.old;
      words = length words.old;
      stamps = length stamps.old;
      dates = length dates.old;
      work = length work.old;
    })) (date_bytes text.now) dates.old }
{
    let room = Room {
        sources: sources.len(),
        words: words.len(),
        stamps: stamps.len(),
        dates: dates.len(),
        work: work.len(),
    };
    let staged = stage(text, work)?;
    let frames = judged(text, room, staged, work)?;
    put_sources(text, staged.lists.sources, sources, dates);
    put_segments(text, staged.places(work), words, stamps);
    Ok(Read {
        frames,
        sources: staged.sources,
        segments: staged.segments,
        dates: staged.dates,
        log: staged.lists.log,
    })
}

/// Reads a table's text: its sources' words, its segments' words and stamps, and the bytes of its
/// creation times, over the first of those that are lent. Refuses by `TextTooLong` (60), `NoRoom`
/// (32) with index 1 where the working room is below `work_needed` words, `NotJson`,
/// `RepeatedName`, `OtherVersion`, `BadMember` (61 to 64), `OverLimit` (2), `NoRoom` with index 0,
/// and as the table's check does (3 to 17), in this order; then nothing is written. The working room
/// is left zero.
pub fn read_table(
    text: &[u8],
    sources: &mut [u64],
    words: &mut [u64],
    stamps: &mut [i64],
    dates: &mut [u8],
    work: &mut [u64],
) -> Result<Read, Refusal>
    ensures answer { result ≡ read_of (plan_of text.now (record {
      sources = length sources.old;
      words = length words.old;
      stamps = length stamps.old;
      dates = length dates.old;
      work = length work.old;
    })) }
    ensures sources_left { sources.new ≡ left_by (plan_of text.now (record {
      sources = length sources.old;
      words = length words.old;
      stamps = length stamps.old;
      dates = length dates.old;
      work = length work.old;
    })) (source_words text.now) sources.old }
    ensures words_left { words.new ≡ left_by (plan_of text.now (record {
      sources = length sources.old;
      words = length words.old;
      stamps = length stamps.old;
      dates = length dates.old;
      work = length work.old;
    })) (segment_words text.now) words.old }
    ensures stamps_left { stamps.new ≡ left_by (plan_of text.now (record {
      sources = length sources.old;
      words = length words.old;
      stamps = length stamps.old;
      dates = length dates.old;
      work = length work.old;
    })) (segment_stamps text.now) stamps.old }
    ensures dates_left { dates.new ≡ left_by (plan_of text.now (record {
      sources = length sources.old;
      words = length words.old;
      stamps = length stamps.old;
      dates = length dates.old;
      work = length work.old;
    })) (date_bytes text.now) dates.old }
    ensures cleared { work.new ≡ replicate (length work.old) 0 }
{
    let answer = read_into(text, sources, words, stamps, dates, work);
    work.fill(0);
    answer
}
