//! The members of the table itself.
ghost use Rattle.std.specs.Prelude.{◌≡◌, ◌≤◌, ◌&&◌, length};
ghost use Rattle.json_tokens.specs.Text.{most_text};
ghost use Rattle.table_fields.specs.Typed.{is_small, is_there};
ghost use Rattle.table_fields.specs.Found.{u64_by, text_by, text_or_null_by, log_at, logged_by, top_at};

use crate::members::{is_object, text_by, text_or_null_by, u64_by};
use json_fields::places;

const MEMBERS: [&[u8]; 4] = [b"version", b"sources", b"segments", b"telemetry_log"];

const LOG_MEMBERS: [&[u8]; 4] = [b"name", b"kind", b"size", b"crc32"];

/// What a table's object has: its version, where its two lists stand, whatever they are, and whether
/// it names a telemetry log (none where what it names is none).
#[derive(Clone, Copy)]
pub struct Top {
    /// Its version, where that is whole.
    pub version: Option<u64>,
    /// Where the value of `sources` stands.
    pub sources: Option<usize>,
    /// Where the value of `segments` stands.
    pub segments: Option<usize>,
    /// Whether it names a telemetry log.
    pub log: Option<bool>,
}

// Whether 32 bits hold a number that is there.
#[tactic(auto, unfolding(crate::specs::Typed::is_small))]
fn is_small(number: Option<u64>) -> bool
    ensures { result ≡ is_small number }
{
    match number {
        Some(n) => n <= 0xffff_ffff,
        None => false,
    }
}

#[tactic(auto, unfolding(crate::specs::Typed::is_there))]
fn is_there(number: Option<u64>) -> bool
    ensures { result ≡ is_there number }
{
    match number {
        Some(_) => true,
        None => false,
    }
}

// Whether what stands at an offset is a telemetry log.
#[tactic(auto, unfolding(crate::specs::Typed::log_of))]
fn is_log(text: &[u8], at: usize, left: usize) -> bool
    requires { length text.now ≤ most_text }
    ensures { result ≡ log_at left text.now at }
{
    let [name, kind, size, crc32] = places::<4>(text, at, left, &LOG_MEMBERS);
    is_object(text, at)
        && (text_or_null_by(text, name)
            && (text_by(text, kind)
                && (is_there(u64_by(text, size)) && is_small(u64_by(text, crc32)))))
}

// Whether a telemetry log is named at a place; none where what is named is none.
#[tactic(auto, unfolding(crate::specs::Found::logged_by))]
fn logged_by(text: &[u8], place: Option<usize>, left: usize) -> Option<bool>
    requires { length text.now ≤ most_text }
    ensures { result ≡ logged_by (log_at left text.now) place }
{
    let Some(at) = place else {
        return Some(false);
    };
    if is_log(text, at, left) {
        return Some(true);
    }
    None
}

/// The table at an offset, in whose members so many lists and objects may stand one in the other.
pub fn top_at(text: &[u8], at: usize, left: usize) -> Top
    requires within { length text.now ≤ most_text }
    requires deep { 1 ≤ left }
    ensures { result ≡ top_at left text.now at }
{
    let [version, sources, segments, log] = places::<4>(text, at, left, &MEMBERS);
    Top {
        version: u64_by(text, version),
        sources,
        segments,
        log: logged_by(text, log, left - 1),
    }
}
