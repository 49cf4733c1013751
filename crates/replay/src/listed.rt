//! A table's segments as a list of records.
ghost use Rattle.std.specs.Prelude.{◌≡◌, ◌+◌, ◌*◌, ◌≤◌, length};
ghost use Rattle.table.specs.Layout.{segment_words, segment_stamps, words_at, stamps_at};
ghost use Rattle.records.specs.Segments.{stamps_of};
ghost use Rattle.replay.specs.Listed.{HasWords};

use crate::case::Fault;
use records::TrimSegment;
use std::alloc::Global;
use table::layout::{STAMPS, WORDS};

// Record k of the words.
fn record_at(words: &[u64], stamps: &[i64], k: usize) -> TrimSegment
    requires { (k * segment_words + segment_words ≤ length words.now)
        × (k * segment_stamps + segment_stamps ≤ length stamps.now) }
    ensures { HasWords result (words_at words.now k) × (stamps_of result ≡ stamps_at stamps.now k) }
{
    let first_word = k * WORDS;
    let first_stamp = k * STAMPS;
    TrimSegment {
        source: words[first_word],
        src_first_frame: words[first_word + 1],
        frame_count: words[first_word + 2],
        out_first_frame: words[first_word + 3],
        src_start_us: stamps[first_stamp],
        out_start_us: stamps[first_stamp + 1],
        duration_us: stamps[first_stamp + 2],
        src_capture_start_us: stamps[first_stamp + 3],
        out_capture_start_us: stamps[first_stamp + 4],
        capture_duration_us: stamps[first_stamp + 5],
        shift_present: words[first_word + 4] == 1,
        clock_shift: stamps[first_stamp + 6],
    }
}

/// The records of the words, which are malformed where they aren't whole records, each with a flag
/// of 0 or 1.
pub fn records_of(alloc: Global, words: &[u64], stamps: &[i64]) -> Result<Vec<TrimSegment>, Fault> {
    let count = words.len() / WORDS;
    if words.len() != count * WORDS
        || stamps.len() / STAMPS != count
        || stamps.len() % STAMPS != 0
    {
        return Err(Fault::Malformed);
    }
    let mut list = Vec::new(alloc);
    for k in 0..count {
        if 1 < words[k * WORDS + 4] {
            return Err(Fault::Malformed);
        }
        list.push(record_at(words, stamps, k))?;
    }
    Ok(list)
}
