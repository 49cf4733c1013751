//! The rows of an accepted table, which are its map (RULES 4.6): as a method of a table in any
//! layout, and as a call on words.
#![tactic(auto)]

ghost use Rattle.std.specs.Prelude.{◌≡◌, false, map, ◌*◌, ◌≤◌, length, pos, ◌==◌, if◌then◌else◌};
ghost use Rattle.slices.specs.Slices.{laid};
ghost use Rattle.rules.specs.Records.{Table};
ghost use Rattle.rows.specs.Lent.{words_of, shifts_of};
ghost use Rattle.table.specs.Layout.{table_of};
ghost use Rattle.table_rows.specs.Rows.{row_of, Rowed};
ghost use Rattle.table_rows.specs.Mapped.{RowsAreMap};
ghost use Rattle.table_rows.specs.Examples.{WorkedExamples};

use refusal::{Reason, Refusal};
use rows::{ROW_WORDS, Row};
use rules::Segment;
use table::layout::{SegmentWords, Segments};
use table::{Accepted, SegmentTable, Tabled};

// The shift of a row: an absent one is 0.
#[tactic(auto)]
fn shift_of(flag: u64, shift: i64) -> i64
    ensures { result ≡ (if flag == 0 then pos 0 else shift) }
{
    if flag == 0 {
        return 0;
    }
    shift
}

// The row of a segment.
#[tactic(auto, unfolding(crate::specs::Rows::row_of))]
fn row_of(segment: Segment) -> Row
    ensures { result ≡ row_of segment }
{
    let words = segment.words;
    Row {
        source: words.source,
        first: words.first,
        count: words.count,
        out: words.out,
        flag: words.flag,
        shift: shift_of(words.flag, segment.stamps.shift),
    }
}

/// How a layout writes the words of its segments' rows: row by row, unless it has them as they are.
pub trait RowWords: Segments {
    /// Writes five words a segment, where there is room for so many.
    #[tactic(auto, using(crate::proofs::Written::writes))]
    fn write_words(&self, out: &mut [u64])
        requires even { Self.uneven self.now ≡ false }
        requires room { 5 * length (Self.listed self.now) ≤ length out.old }
        ensures { out.new ≡ laid (words_of (map row_of (Self.listed self.now))) out.old }
    {
        let n = self.count();
        for k in 0..n {
            rows::put_words(out, k, row_of(self.segment(k)));
        }
    }
}

#[tactic(auto, using(crate::proofs::Written::lent))]
impl RowWords for SegmentWords<'_> {
    // A segment's unsigned words are its row's.
    fn write_words(&self, out: &mut [u64]) {
        slices::copy(self.words, out);
    }
}

// The shifts of the rows.
#[tactic(auto, using(crate::proofs::Written::writes))]
fn write_shifts<S: Segments>(accepted: &Accepted<'_, '_, S>, out: &mut [i64])
    requires { length accepted.now.table.now.segments ≤ length out.old }
    ensures { out.new ≡ laid (shifts_of (map row_of accepted.now.table.now.segments)) out.old }
{
    let n = accepted.segment_count();
    for k in 0..n {
        out[k] = row_of(accepted.segment(k)).shift;
    }
}

/// What is written of a table: of one that is checked first, or of an accepted one, of which
/// nothing is checked again.
pub trait TableRows: Tabled {
    /// The rows of an accepted table, one a segment, into lent room: five words and a shift a row
    /// (too little: `NoRoom`, 32). Answers how many there are (RULES 4.6).
    fn rows_of_table(&self, out_words: &mut [u64], out_shifts: &mut [i64]) -> Result<usize, Refusal>
        ensures { Rowed (Self.table self.now)
            out_words.old out_shifts.old result out_words.new out_shifts.new };
}

#[tactic(auto, using(rules::proofs::Accepted::accepted))]
impl<S: RowWords> TableRows for Accepted<'_, '_, S> {
    fn rows_of_table(
        &self,
        out_words: &mut [u64],
        out_shifts: &mut [i64],
    ) -> Result<usize, Refusal> {
        let table = self.table;
        let n = table.segment_count();
        if (out_words.len() < ROW_WORDS * n) | (out_shifts.len() < n) {
            return Err(Reason::NoRoom.at(0));
        }
        write_shifts(self, out_shifts);
        table.segments.write_words(out_words);
        Ok(n)
    }
}

impl<S: RowWords> TableRows for SegmentTable<'_, S> {
    fn rows_of_table(
        &self,
        out_words: &mut [u64],
        out_shifts: &mut [i64],
    ) -> Result<usize, Refusal> {
        self.accepted()?.rows_of_table(out_words, out_shifts)
    }
}

/// The same of a table that is lent as words.
pub fn rows_of_table(
    sources: &[u64],
    words: &[u64],
    stamps: &[i64],
    log: bool,
    text: &[u8],
    out_words: &mut [u64],
    out_shifts: &mut [i64],
) -> Result<usize, Refusal>
    ensures { Rowed (table_of sources.now words.now stamps.now log text.now)
        out_words.old out_shifts.old result out_words.new out_shifts.new }
{
    SegmentTable::of_words(sources, words, stamps, log, text).rows_of_table(out_words, out_shifts)
}

/// The rows of an accepted table are a map of its frames.
pub fn accepted_rows_are_a_map()
    ensures { (table : Table) → RowsAreMap table }
{}

/// The definitions give the numbers of specs/Examples.antt.
#[tactic(auto, unfolding(crate::specs::Rows::rows_of, crate::specs::Rows::row_of, table::specs::Layout::table_of, table::specs::Layout::segments_of))]
pub fn worked_examples_hold()
    ensures { WorkedExamples }
{}
