//! The segments of a list of frames, of a table that is checked once (RULES 4.4). The list may have
//! any order; a frame in the segment of the one before it, or in the next one, need not be searched
//! for.
#![tactic(auto)]

ghost use Rattle.std.specs.Prelude.{◌≡◌, ◌&&◌, map, ◌≤◌, ◌<◌, length, nat_lt, nat_le};
ghost use Rattle.slices.specs.Slices.{laid};
ghost use Rattle.table.specs.Layout.{table_of};
ghost use Rattle.lookups.specs.Indices.{Indexing};
ghost use Rattle.lookups.specs.Pieces.{index_in, piece_end, piece_at, Covers};

use lookup::Searches;
use refusal::{Reason, Refusal};
use table::layout::Segments;
use table::{Accepted, SegmentTable, Tabled};

/// Frames of one segment: those from `from` on that come before `end`.
#[derive(Clone, Copy, Debug, PartialEq)]
pub struct Piece {
    /// The segment.
    pub index: usize,
    /// The first of its frames in the output.
    pub from: u64,
    /// The frame after the last of them.
    pub end: u64,
}

// Where the frames of segment k end. All frames past the table go to the last segment.
#[tactic(auto)]
fn piece_end<S: Segments>(accepted: &Accepted<'_, '_, S>, k: usize) -> u64
    requires { k < length accepted.now.table.now.segments }
    ensures { result ≡ piece_end accepted.now.table.now k }
{
    let count = accepted.segment_count();
    if k + 1 == count {
        return u64::MAX;
    }
    accepted.segment(k + 1).words.out
}

// The frames of segment k.
fn piece_at<S: Segments>(accepted: &Accepted<'_, '_, S>, k: usize) -> Piece
    requires { k < length accepted.now.table.now.segments }
    ensures { result ≡ piece_at accepted.now.table.now k }
{
    Piece {
        index: k,
        from: accepted.segment(k).words.out,
        end: piece_end(accepted, k),
    }
}

// Whether a frame is one of the piece's.
fn has(piece: Piece, frame: u64) -> bool
    ensures { result ≡ (nat_le piece.from frame && nat_lt frame piece.end) }
{
    (piece.from <= frame) & (frame < piece.end)
}

// A frame's segment, where the frame before it in the list lay in segment k and this one doesn't:
// mostly the next one.
fn piece_after<S: Segments>(accepted: &Accepted<'_, '_, S>, frame: u64, k: usize) -> Piece
    requires { k < length accepted.now.table.now.segments }
    ensures { Covers accepted.now.table.now result × (result.index ≡ index_in accepted.now.table.now frame) }
{
    let count = accepted.segment_count();
    if k + 1 < count {
        let next = piece_at(accepted, k + 1);
        if has(next, frame) {
            return next;
        }
    }
    piece_at(accepted, accepted.segment_of_frame(frame))
}

// A frame's segment, where the frame before it lay in `last`: mostly that one again.
fn piece_of<S: Segments>(accepted: &Accepted<'_, '_, S>, frame: u64, last: Piece) -> Piece
    requires { Covers accepted.now.table.now last }
    ensures { Covers accepted.now.table.now result × (result.index ≡ index_in accepted.now.table.now frame) }
{
    if has(last, frame) {
        return last;
    }
    piece_after(accepted, frame, last.index)
}

// The segment of each frame.
#[tactic(auto, using(table::proofs::Known::some))]
fn write_indices<S: Segments>(accepted: &Accepted<'_, '_, S>, frames: &[u64], out: &mut [u64])
    requires { length frames.now ≤ length out.old }
    ensures { out.new ≡ laid (map (index_in accepted.now.table.now) frames.now) out.old }
{
    let mut piece = piece_at(accepted, 0);
    for k in 0..frames.len() {
        piece = piece_of(accepted, frames[k], piece);
        out[k] = piece.index as u64;
    }
}

/// What is looked up for a list of frames: in a table, which is checked first, or in one that is
/// accepted, of which nothing is checked again.
pub trait ListLookup: Tabled {
    /// The segment of each frame, as `segment_of_frame` answers it, into lent room of at least as
    /// many words (else `NoRoom`, 32). Answers how many there are (RULES 4.4).
    fn segments_of_frames(&self, frames: &[u64], out: &mut [u64]) -> Result<usize, Refusal>
        ensures { Indexing (Self.table self.now) frames.now out.old result out.new };
}

impl<S: Segments> ListLookup for Accepted<'_, '_, S> {
    fn segments_of_frames(&self, frames: &[u64], out: &mut [u64]) -> Result<usize, Refusal> {
        if out.len() < frames.len() {
            return Err(Reason::NoRoom.at(0));
        }
        write_indices(self, frames, out);
        Ok(frames.len())
    }
}

impl<S: Segments> ListLookup for SegmentTable<'_, S> {
    fn segments_of_frames(&self, frames: &[u64], out: &mut [u64]) -> Result<usize, Refusal> {
        self.accepted()?.segments_of_frames(frames, out)
    }
}

/// The same of a table that is lent as words.
pub fn segments_of_frames(
    sources: &[u64],
    words: &[u64],
    stamps: &[i64],
    log: bool,
    text: &[u8],
    frames: &[u64],
    out: &mut [u64],
) -> Result<usize, Refusal>
    ensures { Indexing (table_of sources.now words.now stamps.now log text.now)
        frames.now out.old result out.new }
{
    SegmentTable::of_words(sources, words, stamps, log, text).segments_of_frames(frames, out)
}
