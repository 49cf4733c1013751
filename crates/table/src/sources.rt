//! How a table's sources are lent: thirteen words each, RULES 1.2, one after another.

ghost use Rattle.std.specs.Prelude.{◌≡◌, ◌+◌, ◌*◌, ◌≤◌, ◌<◌, length, get_or};
ghost use Rattle.rules.specs.Records.{no_source};
ghost use Rattle.table.specs.Layout.{source_words, source_at, sources_of, uneven_sources};

use rules::Source;

// How many words a source has.
const SOURCE_WORDS: usize = 13;

/// Sources as words, thirteen each (RULES 1.2).
#[derive(Clone, Copy, Debug, PartialEq)]
pub struct Sources<'a> {
    /// The words of all.
    pub words: &'a [u64],
}

// Source k.
fn source_at(sources: &[u64], k: usize) -> Source
    requires { k * source_words + source_words ≤ length sources.now }
    ensures { result ≡ source_at sources.now k }
{
    let at = k * SOURCE_WORDS;
    Source {
        frames: sources[at],
        numerator: sources[at + 1],
        denominator: sources[at + 2],
        dated: sources[at + 3],
        from: sources[at + 4],
        size: sources[at + 5],
        kind: sources[at + 6],
        ticks: sources[at + 7],
        per: sources[at + 8],
        modulus: sources[at + 9],
        file_size: sources[at + 10],
        imu_known: sources[at + 11],
        imu_origin: sources[at + 12],
    }
}

#[tactic(auto, using(crate::proofs::Lent::sources_length, crate::proofs::Lent::sources_get))]
impl Sources<'_> {
    /// Whether the words are no whole number of sources.
    pub fn is_uneven(&self) -> bool
        ensures { result ≡ uneven_sources (length self.now.words.now) }
    {
        self.count() * SOURCE_WORDS != self.words.len()
    }

    /// How many there are.
    pub fn count(&self) -> usize
        ensures { result ≡ length (sources_of self.now.words.now) }
    {
        self.words.len() / SOURCE_WORDS
    }

    /// Source k.
    pub fn source(&self, k: usize) -> Source
        requires { k < length (sources_of self.now.words.now) }
        ensures { result ≡ get_or (sources_of self.now.words.now) k no_source }
    {
        source_at(self.words, k)
    }
}
