// What a table's text holds, laid over lent slices.
ghost use Rattle.std.specs.Prelude.{◌≡◌, ◌≤◌, ◌+◌, ◌*◌, ◌++◌, length, take, drop, map};
ghost use Rattle.slices.specs.Slices.{laid};
ghost use Rattle.json_tokens.specs.Text.{most_text};
ghost use Rattle.table_text.specs.Lists.{places, created_bytes, segment_in};
ghost use Rattle.table_text.specs.Tables.{known_of, source_by, dated_by, sources_in, dates_in, names_in, span_at, source_list, words_list, stamps_list, all_sources, all_words, all_stamps};

use crate::lists::{IN_LIST, original_in, segment_in};
use json_strings::write_at;
use json_walks::Items;
use rules::{Source, Stamps, Words};
use table_fields::sources::Original;

#[tactic(auto, unfolding(crate::specs::Tables::known_of))]
fn known_of(number: Option<u64>) -> u64
    ensures { result ≡ known_of number }
{
    match number {
        Some(_) => 1,
        None => 0,
    }
}

#[tactic(auto, unfolding(crate::specs::Tables::source_by))]
fn source_by(original: Original, dated: u64, from: u64, size: u64) -> Source
    ensures { result ≡ source_by original dated from size }
{
    Source {
        frames: original.rates.frames,
        numerator: original.rates.numerator,
        denominator: original.rates.denominator,
        dated,
        from,
        size,
        kind: original.clock.kind,
        ticks: original.clock.ticks,
        per: original.clock.per,
        modulus: original.clock.modulus,
        file_size: original.file_size,
        imu_known: known_of(original.imu_origin),
        imu_origin: original.imu_origin.unwrap_or(0),
    }
}

// A source whose creation time, if it has one, is so many bytes from an offset on.
#[tactic(auto, unfolding(crate::specs::Tables::dated_by))]
pub fn dated_by(original: Original, from: u64, size: u64) -> Source
    ensures { result ≡ dated_by original original.created from size }
{
    match original.created {
        None => source_by(original, 0, 0, 0),
        Some(_) => source_by(original, 1, from, size),
    }
}

// A record's words.
pub fn source_list(source: Source) -> [u64; 13]
    ensures { result ≡ source_list source }
{
    [
        source.frames,
        source.numerator,
        source.denominator,
        source.dated,
        source.from,
        source.size,
        source.kind,
        source.ticks,
        source.per,
        source.modulus,
        source.file_size,
        source.imu_known,
        source.imu_origin,
    ]
}

fn words_list(words: Words) -> [u64; 5]
    ensures { result ≡ words_list words }
{
    [
        words.source,
        words.first,
        words.count,
        words.out,
        words.flag,
    ]
}

fn stamps_list(stamps: Stamps) -> [i64; 7]
    ensures { result ≡ stamps_list stamps }
{
    [
        stamps.source_start,
        stamps.out_start,
        stamps.duration,
        stamps.source_capture_start,
        stamps.out_capture_start,
        stamps.capture_duration,
        stamps.shift,
    ]
}

// The bytes of a creation time, from an offset on; answers the offset after them.
#[tactic(auto, using(crate::proofs::Records::nothing_written), unfolding(crate::specs::Lists::created_bytes))]
fn put_date(text: &[u8], created: Option<usize>, out: &mut [u8], from: usize) -> usize
    requires within { length text.now ≤ most_text }
    requires room { from + length (created_bytes text.now created) ≤ length out.old }
    ensures end { result ≡ from + length (created_bytes text.now created) }
    ensures written { out.new ≡ take from out.old ++ (created_bytes text.now created
        ++ drop (from + length (created_bytes text.now created)) out.old) }
{
    match created {
        None => from,
        Some(at) => json_strings::put(text, at, out, from),
    }
}

// The sources, and their creation times.
pub fn put_sources(text: &[u8], list: usize, out: &mut [u64], dates: &mut [u8])
    requires within { length text.now ≤ most_text }
    requires room { 13 * length (places text.now list) ≤ length out.old }
    requires dates_room { length (dates_in text.now (places text.now list)) ≤ length dates.old }
    ensures words { out.new
        ≡ laid (all_sources (sources_in text.now 0 (places text.now list))) out.old }
    ensures dates { dates.new ≡ laid (dates_in text.now (places text.now list)) dates.old }
{
    let mut n: usize = 0;
    let mut from: usize = 0;
    for at in Items::of(text, list, IN_LIST) {
        let original = original_in(text, at);
        let end = put_date(text, original.created, dates, from);
        let source = dated_by(original, from as u64, (end - from) as u64);
        n = write_at(out, n, &source_list(source));
        from = end;
    }
}

// The words and stamps of the segments at some offsets.
pub fn put_segments(text: &[u8], places: &[u64], words: &mut [u64], stamps: &mut [i64])
    requires within { length text.now ≤ most_text }
    requires room { 5 * length places.now ≤ length words.old }
    requires stamps_room { 7 * length places.now ≤ length stamps.old }
    ensures words { words.new ≡ laid (all_words (map (segment_in text.now) places.now)) words.old }
    ensures stamps { stamps.new
        ≡ laid (all_stamps (map (segment_in text.now) places.now)) stamps.old }
{
    let mut n: usize = 0;
    let mut m: usize = 0;
    for at in places {
        let segment = segment_in(text, *at as usize);
        n = write_at(words, n, &words_list(segment.words));
        m = write_at(stamps, m, &stamps_list(segment.stamps));
    }
}

// Where what stands between the quotation marks of the string at an offset starts, and how many
// bytes that is.
#[tactic(auto, using(crate::proofs::Records::string_lies))]
fn span_at(text: &[u8], at: usize) -> [u64; 2]
    requires { length text.now ≤ most_text }
    ensures { result ≡ span_at text.now at }
{
    match json_tokens::string(text, at) {
        Some(end) => [at as u64 + 1, end.saturating_sub(at + 2) as u64],
        None => [0, 0],
    }
}

// The sources' names.
pub fn put_names(text: &[u8], list: usize, out: &mut [u64])
    requires within { length text.now ≤ most_text }
    requires room { 2 * length (places text.now list) ≤ length out.old }
    ensures { out.new ≡ laid (names_in text.now (places text.now list)) out.old }
{
    let mut n: usize = 0;
    for at in Items::of(text, list, IN_LIST) {
        let original = original_in(text, at);
        n = write_at(out, n, &span_at(text, original.name));
    }
}
