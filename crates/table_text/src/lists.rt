//! A table's two lists, and what stands in them, by offsets of the text.

ghost use Rattle.std.specs.Prelude.{◌≡◌, ◌≤◌, ◌*◌, length};
ghost use Rattle.json_tokens.specs.Text.{most_text};
ghost use Rattle.rules.specs.Records.{no_segment};
ghost use Rattle.table_text.specs.Lists.{opened, list_by, lists_by, no_original, original_in, segment_in, created_bytes};

use json_tokens::byte_at;
use rules::{Segment, Stamps, Words};
use table_fields::segments::segment_at;
use table_fields::sources::{Clock, Original, Rates, original_at};
use table_fields::top::Top;

/// So many lists and objects may stand one in the other in a member of the table,
pub const IN_TABLE: usize = 31;

/// in an item of its lists,
pub const IN_LIST: usize = 30;

/// and in a member of one.
pub const IN_RECORD: usize = 29;

/// A table's two lists, and whether it names a telemetry log.
#[derive(Clone, Copy)]
pub struct Lists {
    /// Where the [ of its sources' list ends.
    pub sources: usize,
    /// Where the [ of its segments' list ends.
    pub segments: usize,
    /// Whether it names a telemetry log.
    pub log: bool,
}

// Where the [ of the list at an offset ends.
#[tactic(auto, using(json_tokens::proofs::Texts::stands), unfolding(crate::specs::Lists::opened))]
fn opened(text: &[u8], at: usize) -> Option<usize>
    requires { length text.now ≤ most_text }
    ensures { result ≡ opened text.now at }
{
    if byte_at(text, at) != b'[' {
        return None;
    }
    Some(at + 1)
}

fn list_by(text: &[u8], place: Option<usize>) -> Option<usize>
    requires { length text.now ≤ most_text }
    ensures { result ≡ list_by text.now place }
{
    opened(text, place?)
}

/// The two lists of a table, and whether it names a log, by where its members stand.
#[tactic(auto, unfolding(crate::specs::Lists::lists_of))]
pub fn lists_by(text: &[u8], top: Top) -> Option<Lists>
    requires { length text.now ≤ most_text }
    ensures { result ≡ lists_by text.now top }
{
    let sources = list_by(text, top.sources)?;
    let segments = list_by(text, top.segments)?;
    let log = top.log?;
    Some(Lists {
        sources,
        segments,
        log,
    })
}

#[tactic(auto, unfolding(crate::specs::Lists::no_original))]
fn no_original() -> Original
    ensures { result ≡ no_original }
{
    Original {
        name: 0,
        file_size: 0,
        rates: Rates {
            frames: 0,
            numerator: 0,
            denominator: 0,
        },
        created: None,
        clock: Clock {
            kind: 0,
            ticks: 0,
            per: 0,
            modulus: 0,
        },
        imu_origin: None,
    }
}

#[tactic(auto, unfolding(rules::specs::Records::no_segment))]
fn no_segment() -> Segment
    ensures { result ≡ no_segment }
{
    Segment {
        words: Words {
            source: 0,
            first: 0,
            count: 0,
            out: 0,
            flag: 0,
        },
        stamps: Stamps {
            source_start: 0,
            out_start: 0,
            duration: 0,
            source_capture_start: 0,
            out_capture_start: 0,
            capture_duration: 0,
            shift: 0,
        },
    }
}

/// The source at an offset, or what stands for one.
pub fn original_in(text: &[u8], at: usize) -> Original
    requires { length text.now ≤ most_text }
    ensures { result ≡ original_in text.now at }
{
    match original_at(text, at, IN_RECORD) {
        Some(original) => original,
        None => no_original(),
    }
}

/// The segment at an offset, or what stands for one.
pub fn segment_in(text: &[u8], at: usize) -> Segment
    requires { length text.now ≤ most_text }
    ensures { result ≡ segment_in text.now at }
{
    match segment_at(text, at, IN_RECORD) {
        Some(segment) => segment,
        None => no_segment(),
    }
}

/// How many bytes a creation time has.
#[tactic(auto, unfolding(crate::specs::Lists::created_bytes))]
pub fn date_size(text: &[u8], created: Option<usize>) -> usize
    requires { length text.now ≤ most_text }
    ensures size { result ≡ length (created_bytes text.now created) }
    ensures bounded { result ≤ 4 * most_text }
{
    match created {
        Some(at) => json_strings::size(text, at),
        None => 0,
    }
}
