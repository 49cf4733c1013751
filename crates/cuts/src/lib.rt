//! Many cuts of one map in one call (RULES 10.6): the map is tested once, and the rows of all cuts
//! are written one cut after the other. A map is lent as its words and shifts. The rows are written
//! over the first of out_words and out_shifts, and how many each cut has over the first of counts;
//! word_room, shift_room and count_room are their lengths.
#![tactic(auto)]

ghost use Rattle.std.specs.Prelude.{◌≡◌, ◌+◌, ◌*◌, ◌/◌, ◌≤◌, length, nat_le, Ok};
ghost use Rattle.maps.specs.Answers.{Cut};
ghost use Rattle.cuts.specs.Answers.{range_at, concat, range_refusal, ranges_refusal, room_of, cuts_refusal, Cuts};
ghost use Rattle.cuts.specs.Laws.{CutsLaws};

use maps::{FrameMap, MOST_ROWS, Range};
use refusal::{Reason, Refusal};
use rows::ROW_WORDS;

// Range k of the lent words.
fn range_at(ranges: &[u64], k: usize) -> Range
    requires { 2 * k + 2 ≤ length ranges.now }
    ensures { result ≡ range_at ranges.now k }
{
    let j = 2 * k;
    Range {
        from: ranges[j],
        to: ranges[j + 1],
    }
}

// Why a range of a map of so many frames is refused: it has no frames or ends past it (50).
#[tactic(auto, using(conditions::proofs::Tests::tests))]
fn refuse_range(range: Range, frames: u64) -> Result<(), Reason>
    ensures { result ≡ range_refusal frames range }
{
    if range.to <= range.from {
        return Err(Reason::BadRange);
    }
    if frames < range.to {
        return Err(Reason::BadRange);
    }
    Ok(())
}

// Why the ranges are refused: the first that is no cut, or half a range at the end (50).
#[tactic(auto, using(crate::proofs::Refused::ranged))]
fn refuse_ranges(ranges: &[u64], frames: u64) -> Result<(), Refusal>
    ensures { result ≡ ranges_refusal frames ranges.now }
{
    let n = ranges.len() / 2;
    if ranges.len() % 2 == 1 {
        return Err(Reason::BadRange.at(n));
    }
    for k in 0..n {
        if let Err(reason) = refuse_range(range_at(ranges, k), frames) {
            return Err(reason.at(k));
        }
    }
    Ok(())
}

// The rows for which there is room.
fn room_of(word_room: usize, shift_room: usize) -> usize
    ensures { result ≡ room_of word_room shift_room }
{
    (word_room / ROW_WORDS).min(shift_room)
}

/// Ranges that a map has, and the map: what is cut.
#[derive(Clone, Copy, Debug, PartialEq)]
pub struct Ranges<'a> {
    /// The map.
    pub map: FrameMap<'a>,
    /// Two words a range: its first frame, and the frame after its last.
    pub ranges: &'a [u64],
    ghost tested: { ranges_refusal map.frames ranges.now ≡ Ok tt },
}

#[tactic(auto, using(crate::proofs::Refused::refusing))]
impl<'a> Ranges<'a> {
    ghost use Rattle.maps.specs.Spans.{Room};
    ghost use Rattle.cuts.specs.Writing.{Accepting, AllWritten, asked};

    // The ranges that are lent so, or 50.
    fn of(map: FrameMap<'a>, ranges: &'a [u64]) -> Result<Ranges<'a>, Refusal>
        ensures { Accepting (ranges_refusal map.entry.frames ranges.now)
            map.entry.words.now map.entry.shifts.now ranges.now result }
    {
        refuse_ranges(ranges, map.frames)?;
        Ok(Ranges { map, ranges })
    }

    // Whether room for so many rows holds those of all cuts, counted cut by cut, so that no sum
    // passes the room.
    #[tactic(auto, using(crate::proofs::Rows::counting))]
    fn holds_cut_by_cut(self, room: usize) -> bool
        ensures { result ≡ nat_le (length (concat (asked self.entry))) room }
    {
        let n = self.ranges.len() / 2;
        let mut left = room;
        for k in 0..n {
            let range = range_at(self.ranges, k);
            let part = self.map.part(range);
            if left < part.count {
                return false;
            }
            left -= part.count;
        }
        true
    }

    // The same; where each cut could have all rows of the map, none is counted.
    #[tactic(auto, using(crate::proofs::Rows::plainly))]
    fn holds_all(self, room: usize) -> bool
        ensures { result ≡ nat_le (length (concat (asked self.entry))) room }
    {
        if self.ranges.len() / 2 <= room / self.map.shifts.len() {
            return true;
        }
        self.holds_cut_by_cut(room)
    }

    // The ranges where all cuts are accepted, or the refusal.
    fn plan(
        map: FrameMap<'a>,
        ranges: &'a [u64],
        word_room: usize,
        shift_room: usize,
        count_room: usize,
    ) -> Result<Ranges<'a>, Refusal>
        ensures { Accepting
            (cuts_refusal map.entry.words.now map.entry.shifts.now ranges.now
            word_room shift_room count_room)
            map.entry.words.now map.entry.shifts.now ranges.now result }
    {
        if MOST_ROWS < map.shifts.len() {
            return Err(Reason::RowsDontFit.at(0));
        }
        let asked = Ranges::of(map, ranges)?;
        if count_room < ranges.len() / 2 {
            return Err(Reason::RowsDontFit.at(0));
        }
        if !asked.holds_all(room_of(word_room, shift_room)) {
            return Err(Reason::RowsDontFit.at(0));
        }
        Ok(asked)
    }

    // The rows of all cuts and their counts, over the first of what is lent: how many rows.
    #[tactic(auto, using(crate::proofs::Refused::within))]
    fn write(self, out_words: &mut [u64], out_shifts: &mut [i64], counts: &mut [u64]) -> usize
        requires { Room (length (concat (asked self))) out_words.old out_shifts.old
            × (length self.ranges.now / 2 ≤ length counts.old) }
        ensures { AllWritten (asked self.entry)
            out_words.old out_shifts.old counts.old
            result out_words.new out_shifts.new counts.new }
    {
        let n = self.ranges.len() / 2;
        let mut done: usize = 0;
        for k in 0..n {
            let range = range_at(self.ranges, k);
            let part = self.map.part(range);
            let start = ROW_WORDS * done;
            self.map.write_cut(
                range,
                part,
                &mut out_words[start..],
                &mut out_shifts[done..],
            );
            counts[k] = part.count as u64;
            done += part.count;
        }
        done
    }
}

/// Cuts of a map into what is lent, two words a range: of each range the rows that `maps::cut` would
/// write, and in counts how many these are. Answers how many rows there are in all. Refuses 51,
/// `BadRows`; 52, `RowsDontFit`; 50, `BadRange`, with the range's number; 52 for room (RULES 10.6).
#[tactic(auto, using(crate::proofs::Refused::refusing))]
pub fn cuts(
    words: &[u64],
    shifts: &[i64],
    ranges: &[u64],
    out_words: &mut [u64],
    out_shifts: &mut [i64],
    counts: &mut [u64],
) -> Result<usize, Refusal>
    ensures { Cuts words.now shifts.now ranges.now
        out_words.old out_shifts.old counts.old
        result out_words.new out_shifts.new counts.new }
{
    let map = FrameMap::of(words, shifts)?;
    let asked = Ranges::plan(map, ranges, out_words.len(), out_shifts.len(), counts.len())?;
    Ok(asked.write(out_words, out_shifts, counts))
}

/// Each of many cuts is the cut of its range alone, and one range is one cut; which lists are
/// accepted, how others are refused, and what stays as lent (RULES 10.6).
#[tactic(auto, using(crate::proofs::Lawful::lawful))]
pub fn each_cut_is_one_cut()
    ensures { CutsLaws Cuts Cut }
{}
