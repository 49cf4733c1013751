//! The calls on lent frame maps (RULES 10): cut, join, merge, the origin of a frame, and those of a
//! list of frames.
//! A map is lent as its words and shifts, five words and one shift a row; a `FrameMap` is one that was
//! tested. The rows of the answer are written over the first of out_words and out_shifts; word_room
//! and shift_room are their lengths.
#![tactic(auto)]

ghost use Rattle.std.specs.Prelude.{◌≡◌, ◌+◌, ◌-◌, ◌*◌, ◌%◌, ◌^◌, ◌<◌, ◌≤◌, min, max, length, slice_set, Ok};
ghost use Rattle.std.specs.Result.{result_and};
ghost use Rattle.std.proofs.lemmas.List.Edits.{sets};
ghost use Rattle.conditions.specs.Conditions.{max_u64};
ghost use Rattle.rows.specs.Rows.{row_end, total, ok_shift, ok_row, clip, moved, runs_on, glue};
ghost use Rattle.rows.specs.Lent.{row_at, rows, row_words};
ghost use Rattle.maps.specs.Answers.{sized, fits, first_bad, map_refusal, Cut, Join, Merge, Trace};
ghost use Rattle.maps.specs.Laws.{Laws};
ghost use Rattle.maps.specs.Origins.{Traces, OriginsLaws};

use refusal::{Reason, Refusal};
use rows::{Origin, ROW_WORDS, Row};

/// The rows that a map may have, in or out (RULES 11).
pub const MOST_ROWS: usize = 1024;

/// A map that was tested: its rows are well formed (RULES 10.1). `FrameMap::of` alone makes one.
#[derive(Clone, Copy, Debug, PartialEq)]
pub struct FrameMap<'a> {
    /// Five words a row: source, source first, frame count, out first, shift flag (0 or 1).
    pub words: &'a [u64],
    /// A shift a row, 0 where it is absent.
    pub shifts: &'a [i64],
    /// How many frames the map has.
    pub frames: u64,
    ghost tested: { map_refusal words.now shifts.now ≡ Ok tt },
    ghost counted: { frames ≡ total (rows words.now shifts.now) },
}

/// The frames of a map from `from` on that come before `to`.
#[derive(Clone, Copy, Debug, PartialEq)]
pub struct Range {
    /// The first frame.
    pub from: u64,
    /// The frame after the last.
    pub to: u64,
}

/// The rows that a cut takes.
#[derive(Clone, Copy, Debug, PartialEq)]
pub struct Taken {
    /// The number of the first of them.
    pub first: usize,
    /// How many there are.
    pub count: usize,
}

// Row i of a lent map.
fn row_at(words: &[u64], shifts: &[i64], i: usize) -> Row
    requires { (5 * i + 5 ≤ length words.now) × (i < length shifts.now) }
    ensures { result ≡ row_at words.now shifts.now i }
{
    let j = ROW_WORDS * i;
    Row {
        source: words[j],
        first: words[j + 1],
        count: words[j + 2],
        out: words[j + 3],
        flag: words[j + 4],
        shift: shifts[i],
    }
}

// A row stored as row `at` of what is lent.
fn put_row(out_words: &mut [u64], out_shifts: &mut [i64], at: usize, row: Row)
    requires { (5 * at + 5 ≤ length out_words.old) × (at < length out_shifts.old) }
    ensures { (out_words.new ≡ sets out_words.old (5 * at) (row_words row))
        × (out_shifts.new ≡ slice_set out_shifts.old at row.shift) }
{
    rows::put_words(out_words, at, row);
    out_shifts[at] = row.shift;
}

// Whether a row's flag is 0 or 1, and its shift 0 where the flag is 0.
fn ok_shift(row: Row) -> bool
    ensures { result ≡ ok_shift row }
{
    (row.flag == 1) | ((row.flag == 0) & (row.shift == 0))
}

// Whether a row is well formed where output frame `next` is next; `end` is next after it, where
// that doesn't wrap. A sum that wraps is less than what was added to, so that one test of the
// source's end finds both that and a count of 0.
#[tactic(auto, using(crate::proofs::Tested::tested))]
fn ok_row(next: u64, end: u64, row: Row) -> bool
    requires { end ≡ (next + row.count) % 2 ^ 64 }
    ensures { result ≡ ok_row next row }
{
    let source_end = row.first.wrapping_add(row.count);
    if source_end <= row.first {
        return false;
    }
    if end < next {
        return false;
    }
    if row.out != next {
        return false;
    }
    ok_shift(row)
}

// Whether two lent slices have the lengths of a map of some rows. A shift has eight bytes, so that
// five times their number fits.
fn is_sized(words: &[u64], shifts: &[i64]) -> bool
    ensures { result ≡ sized (length words.now) (length shifts.now) }
{
    (0 < shifts.len()) & (words.len() == ROW_WORDS * shifts.len())
}

// The frames of a map, or 51 at its first row that isn't well formed.
#[tactic(auto, using(crate::proofs::Written::judged))]
fn judge(words: &[u64], shifts: &[i64]) -> Result<u64, Refusal>
    requires { length words.now ≡ 5 * length shifts.now }
    ensures { result
        ≡ result_and
        (first_bad 0 0 (rows words.now shifts.now))
        (Ok (total (rows words.now shifts.now))) }
{
    let mut next: u64 = 0;
    for i in 0..shifts.len() {
        let row = row_at(words, shifts, i);
        let end = next.wrapping_add(row.count);
        if !ok_row(next, end, row) {
            return Err(Reason::BadRows.at(i));
        }
        next = end;
    }
    Ok(next)
}

// Whether so many rows are no more than a map may have, nor than there is room for.
fn has_room(count: usize, word_room: usize, shift_room: usize) -> bool
    ensures { result ≡ fits count word_room shift_room }
{
    count <= MOST_ROWS && ROW_WORDS * count <= word_room && count <= shift_room
}

// A row's overlap with a range, counted from the range's begin.
fn clipped(row: Row, range: Range) -> Row
    requires { (max range.from row.out < min range.to (row_end row))
        × (row_end row ≤ max_u64)
        × (row.first + row.count ≤ max_u64) }
    ensures { result ≡ clip range.from range.to row }
{
    Row {
        first: row.first + range.from.saturating_sub(row.out),
        count: range.to.min(row.out + row.count) - range.from.max(row.out),
        out: row.out.saturating_sub(range.from),
        ..row
    }
}

// Whether a row continues the one that grows.
fn runs_on(current: Row, row: Row) -> bool
    requires { current.first + current.count ≤ max_u64 }
    ensures { result ≡ runs_on current row }
{
    (current.source == row.source)
        & (current.first + current.count == row.first)
        & (current.flag == row.flag)
        & (current.shift == row.shift)
}

// The row that grows, with the frames of the row that continues it.
fn glued(current: Row, row: Row) -> Row
    requires { current.count + row.count ≤ max_u64 }
    ensures { result ≡ glue current row }
{
    Row {
        count: current.count + row.count,
        ..current
    }
}

// A row, so many output frames later.
fn later(row: Row, later_by: u64) -> Row
    requires { later_by + row.out ≤ max_u64 }
    ensures { result ≡ moved later_by row }
{
    Row {
        out: later_by + row.out,
        ..row
    }
}

#[tactic(auto, using(crate::proofs::Planned::planned))]
impl<'a> FrameMap<'a> {
    ghost use Rattle.std.specs.Prelude.{map, ℕ, Some, get_or};
    ghost use Rattle.std.specs.List.{range_with_len};
    ghost use Rattle.slices.specs.Slices.{laid};
    ghost use Rattle.refusal.specs.Refusals.{first_refused};
    ghost use Rattle.rows.specs.Rows.{holds, origin, cut, join, merge};
    ghost use Rattle.rows.specs.Lent.{words_of, shifts_of};
    ghost use Rattle.maps.specs.Answers.{merge_refusal, join_refusal};
    ghost use Rattle.maps.specs.Origins.{origin_at, frame_refusal};
    ghost use Rattle.maps.specs.Maps.{rows_in, Opened};
    ghost use Rattle.maps.specs.Spans.{Room, Holder, Span, Planned};

    /// Tests the map that is lent so. Refuses 51, `BadRows` (RULES 10.1).
    #[tactic(auto, using(crate::proofs::Planned::opening))]
    pub fn of(words: &'a [u64], shifts: &'a [i64]) -> Result<FrameMap<'a>, Refusal>
        ensures { Opened words.now shifts.now result }
    {
        if !is_sized(words, shifts) {
            return Err(Reason::BadRows.at(0));
        }
        let frames = judge(words, shifts)?;
        Ok(FrameMap {
            words,
            shifts,
            frames,
        })
    }

    // Row i.
    #[tactic(auto, using(crate::proofs::Chains::lengths))]
    fn row(self, i: usize) -> Row
        requires { i < length self.shifts.now }
        ensures { result ≡ row_at self.entry.words.now self.entry.shifts.now i }
    {
        row_at(self.words, self.shifts, i)
    }

    // The row that holds a frame.
    fn row_of(self, frame: u64) -> usize
        requires { frame < self.frames }
        ensures { Holder self.entry.words.now self.entry.shifts.now frame result }
    {
        rows::last_begun(self.words, self.shifts.len(), frame)
    }

    /// The rows that the cut of a range takes, which the map has.
    pub fn part(self, range: Range) -> Taken
        requires { (range.from < range.to) × (range.to ≤ self.frames) }
        ensures { Span self.entry.words.now self.entry.shifts.now range.from range.to
            result.first result.count }
    {
        let first = self.row_of(range.from);
        let count = self.row_of(range.to - 1) - first + 1;
        Taken { first, count }
    }

    // The rows that a cut takes, or its refusal.
    fn plan_cut(self, range: Range, word_room: usize, shift_room: usize) -> Result<Taken, Refusal>
        ensures { Planned self.entry.words.now self.entry.shifts.now range.from range.to
            word_room shift_room result }
    {
        if MOST_ROWS < self.shifts.len() {
            return Err(Reason::RowsDontFit.at(0));
        }
        if range.to <= range.from {
            return Err(Reason::BadRange.at(0));
        }
        if self.frames < range.to {
            return Err(Reason::BadRange.at(0));
        }
        let part = self.part(range);
        if !has_room(part.count, word_room, shift_room) {
            return Err(Reason::RowsDontFit.at(0));
        }
        Ok(part)
    }

    /// Writes the overlaps of the rows that a cut takes over the first of what is lent.
    #[tactic(auto, using(crate::proofs::Written::writing))]
    pub fn write_cut(self, range: Range, part: Taken, out_words: &mut [u64], out_shifts: &mut [i64])
        requires { Span self.words.now self.shifts.now range.from range.to part.first part.count
            × Room part.count out_words.old out_shifts.old }
        ensures { (out_words.new
            ≡ laid (words_of (cut range.from range.to (rows_in self.entry))) out_words.old)
            × (out_shifts.new
            ≡ laid (shifts_of (cut range.from range.to (rows_in self.entry))) out_shifts.old) }
    {
        let i = part.first;
        let k = part.count;
        for j in 0..k {
            let row = self.row(i + j);
            let kept = clipped(row, range);
            put_row(out_words, out_shifts, j, kept);
        }
    }

    /// The cut of a range into what is lent: each row's overlap, counted from the range's begin.
    /// Answers how many rows it wrote, five words and a shift each. Refuses 52, `RowsDontFit`, and
    /// 50, `BadRange` (RULES 10.3 and 10.7).
    pub fn cut(
        self,
        range: Range,
        out_words: &mut [u64],
        out_shifts: &mut [i64],
    ) -> Result<usize, Refusal>
        ensures { Cut self.entry.words.now self.entry.shifts.now range.from range.to
            out_words.old out_shifts.old result out_words.new out_shifts.new }
    {
        let part = self.plan_cut(range, out_words.len(), out_shifts.len())?;
        self.write_cut(range, part, out_words, out_shifts);
        Ok(part.count)
    }

    // How many rows its merge has.
    #[tactic(auto, using(crate::proofs::Written::merging))]
    fn count_merge(self) -> usize
        ensures { result ≡ length (merge (rows_in self.entry)) }
    {
        let mut current = self.row(0);
        let mut done: usize = 0;
        for i in 1..self.shifts.len() {
            let row = self.row(i);
            if runs_on(current, row) {
                current = glued(current, row);
                continue;
            }
            done += 1;
            current = row;
        }
        done + 1
    }

    // The refusal of a merge. Its rows are counted only where all of the map's rows have no room.
    fn refuse_merge(self, word_room: usize, shift_room: usize) -> Result<(), Refusal>
        ensures { result ≡ merge_refusal self.entry.words.now self.entry.shifts.now
            word_room shift_room }
    {
        if MOST_ROWS < self.shifts.len() {
            return Err(Reason::RowsDontFit.at(0));
        }
        if has_room(self.shifts.len(), word_room, shift_room) {
            return Ok(());
        }
        if has_room(self.count_merge(), word_room, shift_room) {
            return Ok(());
        }
        Err(Reason::RowsDontFit.at(0))
    }

    // Its merged rows, written over the first rows of what is lent: how many.
    fn write_merge(self, out_words: &mut [u64], out_shifts: &mut [i64]) -> usize
        requires { Room (length (merge (rows_in self))) out_words.old out_shifts.old }
        ensures { (result ≡ length (merge (rows_in self.entry)))
            × (out_words.new ≡ laid (words_of (merge (rows_in self.entry))) out_words.old)
            × (out_shifts.new ≡ laid (shifts_of (merge (rows_in self.entry))) out_shifts.old) }
    {
        let mut current = self.row(0);
        let mut done: usize = 0;
        for i in 1..self.shifts.len() {
            let row = self.row(i);
            if runs_on(current, row) {
                current = glued(current, row);
                continue;
            }
            put_row(out_words, out_shifts, done, current);
            done += 1;
            current = row;
        }
        put_row(out_words, out_shifts, done, current);
        done + 1
    }

    /// The map into what is lent, with one row of neighbours that continue. Answers how many rows it
    /// wrote. Refuses 52, `RowsDontFit` (RULES 10.5 and 10.7).
    pub fn merge(self, out_words: &mut [u64], out_shifts: &mut [i64]) -> Result<usize, Refusal>
        ensures { Merge self.entry.words.now self.entry.shifts.now
            out_words.old out_shifts.old result out_words.new out_shifts.new }
    {
        self.refuse_merge(out_words.len(), out_shifts.len())?;
        Ok(self.write_merge(out_words, out_shifts))
    }

    // The words of its rows, so many output frames later, written over the first of what is lent.
    #[tactic(auto, using(crate::proofs::Written::writing))]
    fn write_moved(self, later_by: u64, out_words: &mut [u64])
        requires { (later_by + self.frames ≤ max_u64)
            × (5 * length self.shifts.now ≤ length out_words.old) }
        ensures { out_words.new
            ≡ laid
            (words_of
            (map
            (λ j. moved later_by (row_at self.entry.words.now self.entry.shifts.now j))
            (range_with_len 0 (length self.entry.shifts.now))))
            out_words.old }
    {
        for i in 0..self.shifts.len() {
            let row = self.row(i);
            rows::put_words(out_words, i, later(row, later_by));
        }
    }

    // The refusal of a join.
    fn refuse_join(
        self,
        second: FrameMap<'_>,
        word_room: usize,
        shift_room: usize,
    ) -> Result<(), Refusal>
        ensures { result ≡ join_refusal self.entry.words.now self.entry.shifts.now
            second.entry.words.now second.entry.shifts.now word_room shift_room }
    {
        if MOST_ROWS < self.shifts.len() {
            return Err(Reason::RowsDontFit.at(0));
        }
        if MOST_ROWS < second.shifts.len() {
            return Err(Reason::RowsDontFit.at(0));
        }
        if conditions::is_past(self.frames, second.frames, u64::MAX) {
            return Err(Reason::JoinWraps.at(0));
        }
        if !has_room(
            self.shifts.len() + second.shifts.len(),
            word_room,
            shift_room,
        ) {
            return Err(Reason::RowsDontFit.at(0));
        }
        Ok(())
    }

    // This map and a second one, that later by this one's frames, written over the first rows of
    // what is lent. What isn't moved is copied as it lies, a slice at a time.
    fn write_join(self, second: FrameMap<'_>, out_words: &mut [u64], out_shifts: &mut [i64])
        requires { (self.frames + second.frames ≤ max_u64)
            × Room (length self.shifts.now + length second.shifts.now) out_words.old out_shifts.old }
        ensures { (out_words.new
            ≡ laid (words_of (join (rows_in self.entry) (rows_in second.entry))) out_words.old)
            × (out_shifts.new
            ≡ laid (shifts_of (join (rows_in self.entry) (rows_in second.entry))) out_shifts.old) }
    {
        slices::copy(self.words, out_words);
        slices::copy(self.shifts, out_shifts);
        let n = self.shifts.len();
        let word_count = ROW_WORDS * n;
        second.write_moved(self.frames, &mut out_words[word_count..]);
        slices::copy(second.shifts, &mut out_shifts[n..]);
    }

    /// This map and a second one into what is lent, the second's out firsts moved. Answers how many
    /// rows it wrote. Refuses 52, `RowsDontFit`, and 53, `JoinWraps` (RULES 10.4).
    pub fn join(
        self,
        second: FrameMap<'_>,
        out_words: &mut [u64],
        out_shifts: &mut [i64],
    ) -> Result<usize, Refusal>
        ensures { Join self.entry.words.now self.entry.shifts.now
            second.entry.words.now second.entry.shifts.now
            out_words.old out_shifts.old result out_words.new out_shifts.new }
    {
        self.refuse_join(second, out_words.len(), out_shifts.len())?;
        self.write_join(second, out_words, out_shifts);
        Ok(self.shifts.len() + second.shifts.len())
    }

    // Where a frame of row i comes from.
    fn origin_in(self, i: usize, frame: u64) -> Origin
        requires { Holder self.words.now self.shifts.now frame i }
        ensures { origin (rows_in self.entry) frame ≡ Some result }
    {
        let row = self.row(i);
        Origin {
            source: row.source,
            frame: row.first + (frame - row.out),
            flag: row.flag,
            shift: row.shift,
        }
    }

    /// Where a frame comes from. Refuses 52, `RowsDontFit`, of over 1,024 rows, and 54, `PastMap`
    /// (RULES 10.2).
    pub fn origin(self, frame: u64) -> Result<Origin, Refusal>
        ensures { Trace self.entry.words.now self.entry.shifts.now frame result }
    {
        if MOST_ROWS < self.shifts.len() {
            return Err(Reason::RowsDontFit.at(0));
        }
        if self.frames <= frame {
            return Err(Reason::PastMap.at(0));
        }
        Ok(self.origin_in(self.row_of(frame), frame))
    }

    // Whether row i has a frame.
    #[tactic(auto, using(crate::proofs::Many::near))]
    fn has(self, i: usize, frame: u64) -> bool
        requires { i < length self.shifts.now }
        ensures { result ≡ holds (row_at self.entry.words.now self.entry.shifts.now i) frame }
    {
        let row = self.row(i);
        row.out <= frame && frame < row.out + row.count
    }

    // The row that holds a frame of a list, where the frame before it lay in row `last`: mostly that
    // one again, or the next.
    #[tactic(auto, using(crate::proofs::Many::near))]
    fn row_near(self, frame: u64, last: usize) -> usize
        requires inside { frame < self.frames }
        requires known { last < length self.shifts.now }
        ensures { Holder self.entry.words.now self.entry.shifts.now frame result }
    {
        if self.has(last, frame) {
            return last;
        }
        let next = last + 1;
        if next < self.shifts.len() && self.has(next, frame) {
            return next;
        }
        self.row_of(frame)
    }

    // Why a list is refused: its first frame that lies past the map (54).
    #[tactic(auto, using(crate::proofs::Many::refusing))]
    fn refuse_frames(self, frames: &[u64]) -> Result<(), Refusal>
        ensures { result ≡ first_refused (frame_refusal self.entry.frames) 0 frames.now }
    {
        for k in 0..frames.len() {
            if self.frames <= frames[k] {
                return Err(Reason::PastMap.at(k));
            }
        }
        Ok(())
    }

    // Where each frame of a list comes from, written over the first of what is lent.
    #[tactic(auto, using(crate::proofs::Many::writing))]
    fn write_origins(self, frames: &[u64], out: &mut [Origin])
        requires inside { (k : ℕ) → k < length frames.now → get_or frames.now k 0 < self.frames }
        requires room { length frames.now ≤ length out.old }
        ensures { out.new ≡ laid (map (origin_at (rows_in self.entry)) frames.now) out.old }
    {
        let mut row = 0;
        for k in 0..frames.len() {
            row = self.row_near(frames[k], row);
            out[k] = self.origin_in(row, frames[k]);
        }
    }

    /// Where each frame of a list comes from, in any order, as `origin` answers it, into lent room.
    /// Answers how many there are. Refuses 52, `RowsDontFit`, of over 1,024 rows; 54, `PastMap`, with
    /// the number of the first frame past the map; 32, `NoRoom` (RULES 10.9).
    #[tactic(auto, using(crate::proofs::Many::answering))]
    pub fn origins(self, frames: &[u64], out: &mut [Origin]) -> Result<usize, Refusal>
        ensures { Traces self.entry.words.now self.entry.shifts.now frames.now
            out.old result out.new }
    {
        if MOST_ROWS < self.shifts.len() {
            return Err(Reason::RowsDontFit.at(0));
        }
        self.refuse_frames(frames)?;
        if out.len() < frames.len() {
            return Err(Reason::NoRoom.at(0));
        }
        self.write_origins(frames, out);
        Ok(frames.len())
    }
}

/// The frames start..end of a map as a map, into what is lent: each row's overlap, counted from
/// start. Answers how many rows it wrote, five words and a shift each. Refuses 51, `BadRows`; 52,
/// `RowsDontFit`; 50, `BadRange`; 52 for rows out or room (RULES 10.3 and 10.7).
pub fn cut(
    words: &[u64],
    shifts: &[i64],
    start: u64,
    end: u64,
    out_words: &mut [u64],
    out_shifts: &mut [i64],
) -> Result<usize, Refusal>
    ensures { Cut words.now shifts.now start end
        out_words.old out_shifts.old result out_words.new out_shifts.new }
{
    let range = Range {
        from: start,
        to: end,
    };
    FrameMap::of(words, shifts)?.cut(range, out_words, out_shifts)
}

/// A map into what is lent, with one row of neighbours that continue. Answers how many rows it
/// wrote. Refuses 51, `BadRows`, and 52, `RowsDontFit` (RULES 10.5 and 10.7).
pub fn merge(
    words: &[u64],
    shifts: &[i64],
    out_words: &mut [u64],
    out_shifts: &mut [i64],
) -> Result<usize, Refusal>
    ensures { Merge words.now shifts.now
        out_words.old out_shifts.old result out_words.new out_shifts.new }
{
    FrameMap::of(words, shifts)?.merge(out_words, out_shifts)
}

/// Two maps into what is lent, the second after the first, its out firsts moved. Answers how many
/// rows it wrote. Refuses 51, `BadRows`, of the first map and then of the second; 52, `RowsDontFit`;
/// 53, `JoinWraps`; 52 for rows out or room (RULES 10.4).
pub fn join(
    words: &[u64],
    shifts: &[i64],
    second_words: &[u64],
    second_shifts: &[i64],
    out_words: &mut [u64],
    out_shifts: &mut [i64],
) -> Result<usize, Refusal>
    ensures { Join words.now shifts.now second_words.now second_shifts.now
        out_words.old out_shifts.old result out_words.new out_shifts.new }
{
    let first = FrameMap::of(words, shifts)?;
    let second = FrameMap::of(second_words, second_shifts)?;
    first.join(second, out_words, out_shifts)
}

/// Where a frame comes from. Refuses 51, `BadRows`; 52, `RowsDontFit`, of over 1,024 rows; 54,
/// `PastMap` (RULES 10.2).
pub fn origin(words: &[u64], shifts: &[i64], frame: u64) -> Result<Origin, Refusal>
    ensures { Trace words.now shifts.now frame result }
{
    FrameMap::of(words, shifts)?.origin(frame)
}

/// Where each frame of a list comes from, in any order, as `origin` answers it, into lent room: the
/// map is tested once. Answers how many there are. Refuses 51, `BadRows`; 52, `RowsDontFit`, of over
/// 1,024 rows; 54, `PastMap`, with the number of the first frame past the map; 32, `NoRoom` (RULES
/// 10.9).
pub fn origins(
    words: &[u64],
    shifts: &[i64],
    frames: &[u64],
    out: &mut [Origin],
) -> Result<usize, Refusal>
    ensures { Traces words.now shifts.now frames.now out.old result out.new }
{
    FrameMap::of(words, shifts)?.origins(frames, out)
}

/// Each origin of a list is the one that `origin` answers of its frame; which lists are accepted, how
/// others are refused, and what stays as lent (RULES 10.9).
#[tactic(auto, using(crate::proofs::Many::lawful))]
pub fn each_origin_is_one_origin()
    ensures { OriginsLaws Traces Trace }
{}

/// What the calls give together: when they accept, that what they write is a map again, with the
/// origins that it must have, and what they leave as lent (RULES 10.8).
#[tactic(auto, using(crate::proofs::Lawful::lawful))]
pub fn calls_keep_origins()
    ensures { Laws Cut Join Merge Trace }
{}
