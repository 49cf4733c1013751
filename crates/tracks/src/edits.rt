//! The edit list: RULES 8.5.
ghost use Rattle.std.specs.Prelude.{Some, IfSome, ◌≡◌, ◌+◌, ◌≤◌, ◌<◌, ◌^◌, length};
ghost use Rattle.tracks.specs.Edits.{entry_at, entry_bytes, no_edit, ending_after, from_time, kept_entry, two_entries, edit_of_entries, elst_of, edit_of};
ghost use Rattle.tracks.specs.SoundEdits.{EditTicks, Sound};

use crate::{Edit, EditEntry};
use boxes::read::{be32, be64, code};
use boxes::search::find_child;
use boxes::{Place, Walk};

// The rate of an edit that is played as it is.
const RATE_ONE: u32 = 0x10000;

// The first number that an i64 doesn't hold.
const TOP: u64 = 0x8000_0000_0000_0000;

// How many bytes an entry has: 20 in version 1.
fn entry_bytes(long: bool) -> usize
    ensures { result ≡ entry_bytes long }
{
    if long {
        return 20;
    }
    12
}

// The entry at an offset: the closure entry of video_frame_times_of_moov.
fn entry_at(long: bool, payload: &[u8], at: usize) -> EditEntry
    requires { at + entry_bytes long ≤ length payload.now }
    ensures { result ≡ entry_at long payload.now at }
{
    if long {
        return EditEntry {
            duration: be64(payload, at),
            time: be64(payload, at + 8).cast_signed(),
            rate: be32(payload, at + 16),
        };
    }
    EditEntry {
        duration: be32(payload, at) as u64,
        time: be32(payload, at + 4).cast_signed() as i64,
        rate: be32(payload, at + 8),
    }
}

// No edit: everything is kept, from 0 on.
fn no_edit() -> Edit
    ensures is { result ≡ no_edit }
    ensures sound { Sound result }
{
    Edit {
        edited: false,
        time: 0,
        end: None,
        empty: 0,
    }
}

// The edit from a time on that ends so many ticks later.
fn ending_after(span: u64, time: u64, empty: i64) -> Option<Edit>
    requires { (time < 2 ^ 63) × EditTicks empty }
    ensures is { result ≡ ending_after (Some span) time empty }
    ensures sound { IfSome result Sound }
{
    if span < TOP - time {
        return Some(Edit {
            edited: true,
            time: time as i64,
            end: Some((time + span) as i64),
            empty,
        });
    }
    None
}

// The edit from a time on, over a duration of the movie.
fn from_time(time: i64, duration: u64, scale: u64, movie: u64, empty: i64) -> Option<Edit>
    requires { (scale < 2 ^ 32) × (0 < movie) × (movie < 2 ^ 32) × EditTicks empty }
    ensures is { result ≡ from_time time duration scale movie empty }
    ensures sound { IfSome result Sound }
{
    if time < 0 {
        return None;
    }
    if duration == 0 {
        return Some(Edit {
            edited: true,
            time,
            end: None,
            empty,
        });
    }
    let span = ticks::edit_ticks(duration, scale, movie)?;
    ending_after(span, time as u64, empty)
}

// The edit of the entry that is kept.
fn kept_entry(entry: EditEntry, scale: u64, movie: u64, empty: i64) -> Option<Edit>
    requires { (scale < 2 ^ 32) × (0 < movie) × (movie < 2 ^ 32) × EditTicks empty }
    ensures is { result ≡ kept_entry entry scale movie empty }
    ensures sound { IfSome result Sound }
{
    if entry.rate == RATE_ONE {
        return from_time(entry.time, entry.duration, scale, movie, empty);
    }
    None
}

// The edit of two entries, of which the first has to be an empty edit.
#[tactic(auto, using(crate::proofs::EditLaws::twos))]
fn two_entries(first: EditEntry, second: EditEntry, scale: u64, movie: u64) -> Option<Edit>
    requires { (scale < 2 ^ 32) × (0 < movie) × (movie < 2 ^ 32) }
    ensures is { result ≡ two_entries first second scale movie }
    ensures sound { IfSome result Sound }
{
    if first.time != -1 {
        return None;
    }
    if TOP <= first.duration {
        return None;
    }
    let empty = ticks::edit_ticks(first.duration, scale, movie)?;
    kept_entry(second, scale, movie, empty as i64)
}

// The edit of an edit list's entries.
fn edit_of_entries(
    entries: usize,
    long: bool,
    payload: &[u8],
    scale: u64,
    movie: u64,
) -> Option<Edit>
    requires { (scale < 2 ^ 32) × (0 < movie) × (movie < 2 ^ 32) }
    ensures is { result ≡ edit_of_entries entries long payload.now scale movie }
    ensures sound { IfSome result Sound }
{
    if entries == 0 {
        return Some(no_edit());
    }
    if 2 < entries {
        return None;
    }
    let width = entry_bytes(long);
    if payload.len() < 8 + entries * width {
        return None;
    }
    if entries == 1 {
        return kept_entry(entry_at(long, payload, 8), scale, movie, 0);
    }
    let first = entry_at(long, payload, 8);
    two_entries(first, entry_at(long, payload, 8 + width), scale, movie)
}

// The edit of an elst's payload.
fn elst(payload: &[u8], scale: u64, movie: u64) -> Option<Edit>
    requires { (scale < 2 ^ 32) × (0 < movie) × (movie < 2 ^ 32) }
    ensures is { result ≡ elst_of payload.now scale movie }
    ensures sound { IfSome result Sound }
{
    if payload.len() < 8 {
        return None;
    }
    edit_of_entries(
        be32(payload, 4) as usize,
        payload[0] == 1,
        payload,
        scale,
        movie,
    )
}

/// The edit of an edts' payload, which is empty where a track has none: the edit list of the Rust's
/// `video_frame_times_of_moov` (RULES 8.5; ISO/IEC 14496-12, 8.6.6). `scale` is the track's
/// timescale, and `movie` the movie's, in ticks a second. None where the list isn't whole or can't
/// be followed: a caller refuses with `Missing` (31).
pub fn edit_of(edts: &[u8], scale: u64, movie: u64) -> Option<Edit>
    requires { (scale < 2 ^ 32) × (0 < movie) × (movie < 2 ^ 32) }
    ensures is { result ≡ edit_of edts.now scale movie }
    ensures sound { IfSome result Sound }
{
    let Walk::Found(Place { start, len }) = find_child(edts, code(b"elst")) else {
        return Some(no_edit());
    };
    elst(&edts[start..start + len], scale, movie)
}
