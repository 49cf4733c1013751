// A table's text staged in the working room, so that its table can be asked where it stands.
ghost use Rattle.std.specs.Prelude.{ℕ, ◌≡◌, ◌≤◌, ◌+◌, ◌*◌, ◌++◌, length, take, drop, map, if◌then◌else◌, Option, Some, None, Ok};
ghost use Rattle.slices.specs.Slices.{laid};
ghost use Rattle.utc.specs.Utc.{utc_second};
ghost use Rattle.json_tokens.specs.Text.{most_text};
ghost use Rattle.table_text.specs.declared.staging.Staged.{Staged};
ghost use Rattle.table_text.specs.Lists.{places, are_sources, are_segments, created_bytes};
ghost use Rattle.table_text.specs.Tables.{dated_by, dates_in, all_sources};
ghost use Rattle.table_text.specs.Layout.{least_work, staged_in, staged_table, Holds};
ghost use Rattle.table_text.specs.Read.{work_needed, stage_lists, is_one, stage_of, counted_of};

use crate::layout::TextSegments;
use crate::lists::{IN_LIST, IN_RECORD, IN_TABLE, Lists, date_size, lists_by};
use crate::puts::{dated_by, source_list};
use json_tokens::skip;
use json_walks::Items;
use refusal::{Reason, Refusal};
use rules::Source;
use table::SegmentTable;
use table::sources::Sources;
use table_fields::segments::segment_at;
use table_fields::sources::{Original, original_at};
use table_fields::top::top_at;

// The most bytes that a text has.
const MOST_TEXT: usize = 1_048_576;

// Where the places of segments stand in the working room: behind the words of 256 sources.
const PLACES: usize = 3328;

// The least working room: those words, and 512 places.
const LEAST_WORK: usize = 3840;

/// A text whose table is staged: its words are laid over the working room that was lent, and it can
/// be asked until that is used again.
#[derive(Clone, Copy)]
pub struct Staged {
    /// Its lists, and whether it names a telemetry log.
    pub lists: Lists,
    /// How many sources it has.
    pub sources: usize,
    /// How many segments.
    pub segments: usize,
    /// How many bytes its sources' creation times have.
    pub dates: usize,
}

// How many sources a list has, and how many bytes their creation times.
#[derive(Clone, Copy)]
struct Counted {
    count: usize,
    dates: usize,
}

/// How many words of working room a text of so many bytes needs: one for four bytes, and at least
/// 3840.
#[tactic(auto, unfolding(crate::specs::Read::work_needed))]
pub fn work_needed(bytes: usize) -> usize
    ensures { result ≡ work_needed bytes }
{
    let words = bytes.div_ceil(4);
    if words < LEAST_WORK {
        return LEAST_WORK;
    }
    words
}

// Writes a part over the elements from an offset on, where they are as many; answers the offset
// after it.
fn put_part(out: &mut [u64], from: usize, part: &[u64]) -> usize
    requires { from ≤ length out.old }
    ensures written { from + length part.now ≤ length out.old → (result ≡ from + length part.now)
        × (out.new ≡ take from out.old ++ (part.now ++ drop (from + length part.now) out.old)) }
    ensures inside { result ≤ length out.old }
{
    if out.len() - from < part.len() {
        return from;
    }
    json_strings::write_at(out, from, part)
}

// How much of the date that stands for all a source's creation time is, which has so many bytes.
#[tactic(auto, unfolding(crate::specs::Lists::created_bytes, utc::specs::Utc::utc_second))]
fn staged_size(text: &[u8], created: Option<usize>, bytes: usize) -> u64
    requires within { length text.now ≤ most_text }
    requires counted { bytes ≡ length (created_bytes text.now created) }
    ensures { result ≡ (if utc_second (created_bytes text.now created) then 20 else 0) }
{
    match created {
        None => 0,
        Some(at) => {
            if bytes != 20 || !json_strings::is_utc(text, at) {
                return 0;
            }
            20
        }
    }
}

// A source as it is staged, whose creation time has so many bytes.
fn staged_source(text: &[u8], original: Original, bytes: usize) -> Source
    requires within { length text.now ≤ most_text }
    requires counted { bytes ≡ length (created_bytes text.now original.created) }
    ensures { result ≡ dated_by original original.created 0
        (if utc_second (created_bytes text.now original.created) then 20 else 0) }
{
    dated_by(original, 0, staged_size(text, original.created, bytes))
}

// How many sources a list has, where each of its items is one. Their words are staged, where they
// have room.
fn sources_in(text: &[u8], list: usize, out: &mut [u64]) -> Option<Counted>
    requires { length text.now ≤ most_text }
    ensures counted { result ≡ counted_of (are_sources text.now (places text.now list)) (record {
      count = length (places text.now list);
      dates = length (dates_in text.now (places text.now list));
    }) }
    ensures staged { (c : Counted) → result ≡ Some c → 13 * length (places text.now list) ≤ length out.old
        → out.new ≡ laid (all_sources (map (staged_in text.now) (places text.now list))) out.old }
{
    let mut n: usize = 0;
    let mut count: usize = 0;
    let mut dates: usize = 0;
    for at in Items::of(text, list, IN_LIST) {
        let original = original_at(text, at, IN_RECORD)?;
        let bytes = date_size(text, original.created);
        n = put_part(out, n, &source_list(staged_source(text, original, bytes)));
        dates += bytes;
        count += 1;
    }
    Some(Counted { count, dates })
}

// How many segments a list has, where each of its items is one. Their places are laid, where they
// have room.
fn segments_in(text: &[u8], list: usize, out: &mut [u64]) -> Option<usize>
    requires { length text.now ≤ most_text }
    ensures counted { result
        ≡ counted_of (are_segments text.now (places text.now list)) (length (places text.now list)) }
    ensures laid { (n : ℕ) → result ≡ Some n → length (places text.now list) ≤ length out.old
        → out.new ≡ laid (places text.now list) out.old }
{
    let mut n: usize = 0;
    let mut count: usize = 0;
    for at in Items::of(text, list, IN_LIST) {
        segment_at(text, at, IN_RECORD)?;
        n = put_part(out, n, &[at as u64]);
        count += 1;
    }
    Some(count)
}

// 64 of what stands in the lists, 2, and otherwise the table staged.
#[tactic(auto, unfolding(crate::specs::Read::stage_lists))]
fn stage_lists(text: &[u8], lists: Lists, work: &mut [u64]) -> Result<Staged, Refusal>
    requires within { length text.now ≤ most_text }
    requires room { least_work ≤ length work.old }
    ensures answer { result ≡ stage_lists text.now lists }
    ensures held { (s : Staged) → result ≡ Ok s → Holds text.now s work.new }
{
    let Some(sources) = sources_in(text, lists.sources, &mut work[..PLACES]) else {
        return Err(Reason::BadMember.at(0));
    };
    let Some(segments) = segments_in(text, lists.segments, &mut work[PLACES..]) else {
        return Err(Reason::BadMember.at(0));
    };
    if rules::over_limit(sources.count, segments) {
        return Err(Reason::OverLimit.at(0));
    }
    Ok(Staged {
        lists,
        sources: sources.count,
        segments,
        dates: sources.dates,
    })
}

#[tactic(auto, unfolding(crate::specs::Read::is_one))]
fn is_one(number: Option<u64>) -> bool
    ensures { result ≡ is_one number }
{
    match number {
        Some(n) => n == 1,
        None => false,
    }
}

/// Stages the table of a text in the working room: what `Staged::table` asks of. Refuses by
/// `TextTooLong` (60), `NoRoom` (32, index 1, of a working room below `work_needed` words),
/// `NotJson`, `RepeatedName`, `OtherVersion`, `BadMember` (61 to 64) and `OverLimit` (2), in this
/// order. Whatever it answers, the working room is left as it may.
#[tactic(auto, unfolding(crate::specs::Read::stage_of, crate::specs::Read::stage_seen, crate::specs::Read::stage_by))]
pub fn stage(text: &[u8], work: &mut [u64]) -> Result<Staged, Refusal>
    ensures answer { result ≡ stage_of text.now (length work.old) }
    ensures held { (s : Staged) → result ≡ Ok s → Holds text.now s work.new }
{
    if MOST_TEXT < text.len() {
        return Err(Reason::TextTooLong.at(0));
    }
    if work.len() < work_needed(text.len()) {
        return Err(Reason::NoRoom.at(1));
    }
    let document = json_documents::document(text, work).ok_or(Reason::NotJson.at(0))?;
    if document.repeats {
        return Err(Reason::RepeatedName.at(0));
    }
    let root = skip(text, 0);
    let top = top_at(text, root, IN_TABLE);
    if !is_one(top.version) {
        return Err(Reason::OtherVersion.at(0));
    }
    let lists = lists_by(text, top).ok_or(Reason::BadMember.at(0))?;
    stage_lists(text, lists, work)
}

impl Staged {
    /// The table, as it stands in the text: every answer of a table is to be had of it. Its sources'
    /// creation times are one date, or none where they fail the UTC rule.
    pub fn table<'a>(self, text: &'a [u8], work: &'a [u64]) -> SegmentTable<'a, TextSegments<'a>>
        requires { Holds text.now self work.now }
        ensures { result ≡ staged_table text.now self.lists }
    {
        SegmentTable {
            sources: Sources {
                words: &work[..13 * self.sources],
            },
            segments: TextSegments {
                text,
                at: self.places(work),
            },
            text: b"2000-01-01T00:00:00Z",
            log: self.lists.log,
        }
    }

    // Where its segments stand.
    pub(crate) fn places<'a>(self, work: &'a [u64]) -> &'a [u64]
        requires { 3328 + self.segments ≤ length work.now }
        ensures { result.now ≡ take self.segments (drop 3328 work.now) }
    {
        &work[PLACES..PLACES + self.segments]
    }
}
