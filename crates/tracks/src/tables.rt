//! Timescales, and the tables that have a count and a value in each entry: durations (stts) and
//! offsets (ctts). RULES 8.2 to 8.4.
ghost use Rattle.std.specs.Prelude.{◌≡◌, ◌≤◌, ◌<◌, ◌^◌, ℕ, Bool};
ghost use Rattle.boxes.specs.Boxes.{most_bytes};
ghost use Rattle.tracks.specs.Tables.{timescale, is_unsigned, offset_of};
ghost use Rattle.tracks.specs.Opening.{Spread, offset_wrap, wrapped};

use crate::entries::EntryTable;
use boxes::read::be32;

/// The timescale of a mvhd's or mdhd's payload, in ticks a second; none where it isn't whole: the
/// Rust's `full_box` and `be_u32` (RULES 8.2; ISO/IEC 14496-12, 8.2.2 and 8.4.2).
pub fn timescale(payload: &[u8]) -> Option<u32>
    ensures { result ≡ timescale payload.now }
{
    if payload.len() < 16 {
        return None;
    }
    if payload[0] == 1 {
        if payload.len() < 24 {
            return None;
        }
        return Some(be32(payload, 20));
    }
    Some(be32(payload, 12))
}

// Whether the offsets of a ctts are unsigned. An absent ctts has none; its version counts as 0.
fn is_unsigned(standard: bool, ctts: &[u8]) -> bool
    ensures { result ≡ is_unsigned standard ctts.now }
{
    if ctts.len() == 0 {
        return standard;
    }
    standard & (ctts[0] == 0)
}

/// What is taken off an offset of a ctts whose top bit is set: 0 where offsets are unsigned, as the
/// standard has them in version 0 (RULES 8.4; ISO/IEC 14496-12, 8.6.1.3), else 2^32. It is found
/// once, so that either reading costs the same for each frame.
pub fn offset_wrap(standard: bool, ctts: &[u8]) -> u64
    ensures { result ≡ offset_wrap (is_unsigned standard ctts.now) }
{
    if is_unsigned(standard, ctts) {
        return 0;
    }
    0x1_0000_0000
}

/// An offset of a ctts in ticks, of its four bytes and of what is taken off: where offsets are
/// signed, the Rust's `as i32 as i64`.
pub fn offset(wrap: u64, word: u32) -> i64
    requires { wrap ≤ 2 ^ 32 }
    ensures { result ≡ wrapped wrap word }
{
    if word < 0x8000_0000 {
        return word as i64;
    }
    (word as i64) - (wrap as i64)
}

/// An offset, less what is taken off it where its top bit is set, is what the definition reads,
/// unsigned or signed.
#[tactic(auto, using(crate::proofs::OffsetLaws::offset_wrapped))]
pub fn wrapped_offsets_are_right()
    ensures { (unsigned : Bool) (word : ℕ) → word < 2 ^ 32
        → wrapped (offset_wrap unsigned) word ≡ offset_of unsigned word }
{}

/// Lays a table's values over `out`, each as often as its entry says, and answers how often that is
/// together: the first loop of the Rust's `video_frame_times_of_moov` (RULES 8.3). Over `most` it
/// stops, and answers `most + 1`; what doesn't fit `out` isn't laid.
pub fn lay(table: EntryTable<'_>, most: usize, out: &mut [i64]) -> usize
    requires { most ≤ most_bytes }
    ensures { Spread table.entry.payload.now table.entry.entries most result out.old out.new }
{
    let mut sum: usize = 0;
    for run in table.runs() {
        if most - sum < run.count {
            return most + 1;
        }
        let from = sum;
        sum += run.count;
        if sum <= out.len() {
            out[from..sum].fill(run.value as i64);
        }
    }
    sum
}
