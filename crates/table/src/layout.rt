//! How a table's segments are lent: what a layout owes, and the layout as rows of words.

ghost use Rattle.std.specs.Prelude.{◌≡◌, false, Bool, List, ◌+◌, ◌*◌, ◌≤◌, ◌<◌, length, get_or};
ghost use Rattle.rules.specs.declared.Segment.{Segment};
ghost use Rattle.rules.specs.Records.{no_segment};
ghost use Rattle.table.specs.Layout.{segment_words, segment_stamps, words_at, stamps_at, segments_of, uneven_rows};

use rules::{Segment, Stamps, Words};

/// How many unsigned words a segment has (RULES 1.3).
pub const WORDS: usize = 5;

/// How many signed words a segment has (RULES 1.3).
pub const STAMPS: usize = 7;

/// Segments, however they are lent. A layout is a view of lent slices.
pub trait Segments: Copy {
    // Whether the lengths are uneven, and the segments; where they are, `count` alone is held to
    // the list.
    ghost uneven: { Self → Bool };

    ghost listed: { Self → List Segment };

    /// Whether the lent slices' lengths are no whole number of segments, or disagree; then nothing
    /// is read of them.
    fn is_uneven(&self) -> bool
        ensures { result ≡ uneven self.now };

    /// How many segments there are.
    fn count(&self) -> usize
        ensures { result ≡ length (listed self.now) };

    /// Segment k, of lengths that fit.
    fn segment(&self, k: usize) -> Segment
        requires even { uneven self.now ≡ false }
        requires inside { k < length (listed self.now) }
        ensures { result ≡ get_or (listed self.now) k no_segment };
}

/// Words: five unsigned words a segment in one slice, seven signed ones in the other.
#[derive(Clone, Copy, Debug, PartialEq)]
pub struct SegmentWords<'a> {
    /// Source, source first, frame count, out first, whether there is a shift: of each segment.
    pub words: &'a [u64],
    /// Its six times in microseconds, and its shift.
    pub stamps: &'a [i64],
}

// The unsigned words of segment k.
fn words_at(words: &[u64], k: usize) -> Words
    requires { k * segment_words + segment_words ≤ length words.now }
    ensures { result ≡ words_at words.now k }
{
    let at = k * WORDS;
    Words {
        source: words[at],
        first: words[at + 1],
        count: words[at + 2],
        out: words[at + 3],
        flag: words[at + 4],
    }
}

// Its signed words.
fn stamps_at(stamps: &[i64], k: usize) -> Stamps
    requires { k * segment_stamps + segment_stamps ≤ length stamps.now }
    ensures { result ≡ stamps_at stamps.now k }
{
    let at = k * STAMPS;
    Stamps {
        source_start: stamps[at],
        out_start: stamps[at + 1],
        duration: stamps[at + 2],
        source_capture_start: stamps[at + 3],
        out_capture_start: stamps[at + 4],
        capture_duration: stamps[at + 5],
        shift: stamps[at + 6],
    }
}

// Whether the lengths aren't whole or disagree: the second is the first and two more a segment.
fn uneven_rows(words: usize, stamps: usize) -> bool
    ensures { result ≡ uneven_rows words stamps }
{
    let count = words / WORDS;
    if count * WORDS != words {
        return true;
    }
    if stamps < words {
        return true;
    }
    stamps - words != count * 2
}

#[tactic(auto, using(crate::proofs::Lent::segments_length, crate::proofs::Lent::segments_get, crate::proofs::Lent::even))]
impl Segments for SegmentWords<'_> {
    ghost uneven = { λ rows. uneven_rows (length rows.words.now) (length rows.stamps.now) };

    ghost listed = { λ rows. segments_of rows.words.now rows.stamps.now };

    fn is_uneven(&self) -> bool {
        uneven_rows(self.words.len(), self.stamps.len())
    }

    fn count(&self) -> usize {
        self.words.len() / WORDS
    }

    fn segment(&self, k: usize) -> Segment {
        Segment {
            words: words_at(self.words, k),
            stamps: stamps_at(self.stamps, k),
        }
    }
}
