//! Frame maps as definitions (RULES 10), with the theorems of RULES 10.8, and the search for a row.
//! What the calls over lent rows do is in the crate `maps`.
#![tactic(auto)]

pub mod halving;

ghost use Rattle.std.specs.Prelude.{◌≡◌, ◌+◌, ◌*◌, ◌≤◌, length};
ghost use Rattle.std.proofs.lemmas.List.Edits.{sets};
ghost use Rattle.rows.specs.Begun.{out_at, OutsRise, LastBegun};
ghost use Rattle.rows.specs.Demands.{Demands};
ghost use Rattle.rows.specs.Lent.{row_words};

/// A row of a frame map: a run of frames of one source, in the output (RULES 10.1).
#[derive(Clone, Copy, Debug, PartialEq)]
pub struct Row {
    /// The source's number.
    pub source: u64,
    /// Its first frame in the source.
    pub first: u64,
    /// How many frames it has.
    pub count: u64,
    /// Its first frame in the output.
    pub out: u64,
    /// Whether it has a shift: 1 or 0.
    pub flag: u64,
    /// The shift, in ticks of the source's clock, 0 where there is none.
    pub shift: i64,
}

/// Where a frame comes from (RULES 10.2).
#[repr(C)]
#[derive(Clone, Copy, Debug, PartialEq)]
pub struct Origin {
    /// The source's number.
    pub source: u64,
    /// The frame there.
    pub frame: u64,
    /// Whether it has a shift: 1 or 0.
    pub flag: u64,
    /// The shift, in ticks of the source's clock, 0 where there is none.
    pub shift: i64,
}

/// The words of a lent row.
pub const ROW_WORDS: usize = 5;

// Which of them says where the row begins in the output.
const OUT_WORD: usize = 3;

/// The last of n rows in lent words that begins at or before a frame.
pub fn last_begun(words: &[u64], n: usize, frame: u64) -> usize
    requires { OutsRise words.now n × (out_at words.now 0 ≤ frame) }
    ensures { LastBegun words.now n frame result }
{
    halving::last_that(n, |k| words[ROW_WORDS * k + OUT_WORD] <= frame)
}

/// Stores a row's words as those of row `at` of what is lent.
#[inline(always)]
pub fn put_words(out: &mut [u64], at: usize, row: Row)
    requires { 5 * at + 5 ≤ length out.old }
    ensures { out.new ≡ sets out.old (5 * at) (row_words row) }
{
    let j = ROW_WORDS * at;
    out[j] = row.source;
    out[j + 1] = row.first;
    out[j + 2] = row.count;
    out[j + 3] = row.out;
    out[j + 4] = row.flag;
}

/// The rows of a well-formed map tile its frames, so that each has one origin; a cut, a join and a
/// merge keep origins; two maps merge alike exactly when their origins agree; and an absent shift
/// isn't a shift of 0 (RULES 10.8 and 13.3).
#[tactic(auto, using(crate::proofs::Demanded::demanded))]
pub fn maps_meet_the_demands()
    ensures { Demands }
{}
