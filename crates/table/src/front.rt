// What refuses a table before its segments are walked: its flags and kinds, its sources, and its
// limits (1 to 8 of RULES 3).
ghost use Rattle.std.specs.Prelude.{◌≡◌, true, false, ◌<◌, length};
ghost use Rattle.std.specs.List.{list_any};
ghost use Rattle.refusal.specs.Refusals.{first_refused};
ghost use Rattle.rules.specs.Records.{source};
ghost use Rattle.rules.specs.Rules.{bad_source, bad_segment, malformed, source_refusal, check_of};
ghost use Rattle.rules.specs.Walks.{FineSource};
ghost use Rattle.table.specs.FirstWalk.{FineSources, FineFront, front_of};

use crate::SegmentTable;
use crate::layout::Segments;
use refusal::{Reason, Refusal};

impl<'a, S: Segments> SegmentTable<'a, S> {
    // Whether a flag or the kind of source k is outside its set, or its creation time's range
    // leaves the text (1).
    fn is_bad(&self, k: usize) -> bool
        requires { k < length self.now.sources }
        ensures { result ≡ bad_source (length self.now.text) (source self.now k) }
    {
        self.source(k).is_bad(self.text.len() as u64)
    }

    // What refuses source k for a 0, its creation time or its clock (4 to 7).
    fn source_refusal(&self, k: usize) -> Result<(), Reason>
        requires { k < length self.now.sources }
        ensures { result ≡ source_refusal self.now.log self.now.text (source self.now k) }
    {
        self.source(k).refusal(self.log, self.text)
    }

    // A yes says that nothing refuses source k.
    #[inline(never)]
    fn is_fine_whole(&self, k: usize) -> bool
        requires { k < length self.now.sources }
        ensures { result ≡ true → FineSource self.now.log self.now.text (source self.now k) }
    {
        if self.is_bad(k) {
            return false;
        }
        self.source_refusal(k).is_ok()
    }

    // The same; of a source without creation time and clock three words are left to test. A bad flag
    // of its origin is left to the whole test too.
    fn is_fine(&self, k: usize) -> bool
        requires { k < length self.now.sources }
        ensures { result ≡ true → FineSource self.now.log self.now.text (source self.now k) }
    {
        let source = self.source(k);
        if ((source.dated != 0) | (source.kind != 0)) | (source.imu_known > 1) {
            return self.is_fine_whole(k);
        }
        if self.log {
            return false;
        }
        if source.frames == 0 {
            return false;
        }
        if source.numerator == 0 {
            return false;
        }
        source.denominator != 0
    }

    // Whether a flag, a kind or a range of any source refuses the table (1).
    #[tactic(auto, using(crate::proofs::Checks::loops))]
    fn has_bad_source(&self) -> bool
        ensures { result ≡ list_any (bad_source (length self.now.text)) self.now.sources }
    {
        let count = self.source_count();
        for k in 0..count {
            if self.is_bad(k) {
                return true;
            }
        }
        false
    }

    // Whether the flag of any segment is outside its set (1).
    #[tactic(auto, using(crate::proofs::Checks::loops), unfolding(rules::specs::Rules::bad_segment))]
    pub(crate) fn has_bad_flag(&self) -> bool
        requires { self.now.uneven ≡ false }
        ensures { result ≡ list_any bad_segment self.now.segments }
    {
        let count = self.segment_count();
        for k in 0..count {
            if self.segment(k).words.flag > 1 {
                return true;
            }
        }
        false
    }

    // Whether either holds: malformed (1), of lengths that fit.
    #[tactic(auto, unfolding(rules::specs::Rules::malformed))]
    fn is_malformed(&self) -> bool
        requires { self.now.uneven ≡ false }
        ensures { result ≡ malformed self.now }
    {
        self.has_bad_source() | self.has_bad_flag()
    }

    // What refuses the first source that isn't fine (4 to 7).
    #[tactic(auto, using(crate::proofs::Checks::loops))]
    fn first_refused_source(&self) -> Result<(), Refusal>
        ensures { result
            ≡ first_refused (source_refusal self.now.log self.now.text) 0 self.now.sources }
    {
        let count = self.source_count();
        for k in 0..count {
            if let Err(reason) = self.source_refusal(k) {
                return Err(reason.at(k));
            }
        }
        Ok(())
    }

    // A yes says that nothing refuses any source.
    #[tactic(auto, using(crate::proofs::Checks::loops))]
    fn has_fine_sources(&self) -> bool
        ensures { result ≡ true → FineSources self.now }
    {
        let count = self.source_count();
        for k in 0..count {
            if !self.is_fine(k) {
                return false;
            }
        }
        true
    }

    // A yes says that neither the limits nor the sources refuse the table, and that there are
    // sources and segments (1 of sources, 2 to 8). After a no they are tested in order.
    pub(crate) fn has_fine_front(&self) -> bool
        ensures { result ≡ true → FineFront self.now }
    {
        let sources = self.source_count();
        let segments = self.segment_count();
        if rules::over_limit(sources, segments) {
            return false;
        }
        if (sources == 0) | (segments == 0) {
            return false;
        }
        self.has_fine_sources()
    }

    // Whatever refuses the table before its segments (1 to 8), in order, of lengths that fit.
    #[tactic(auto, unfolding(rules::specs::Rules::front_refusal))]
    fn front_refusal(&self) -> Result<(), Refusal>
        requires { self.now.uneven ≡ false }
        ensures { result ≡ front_of self.now }
    {
        let sources = self.source_count();
        let segments = self.segment_count();
        if self.is_malformed() {
            return Err(Reason::Malformed.at(0));
        }
        if rules::over_limit(sources, segments) {
            return Err(Reason::OverLimit.at(0));
        }
        if sources == 0 {
            return Err(Reason::NoSources.at(0));
        }
        self.first_refused_source()?;
        if segments == 0 {
            return Err(Reason::NoSegments.at(0));
        }
        Ok(())
    }

    // Checks a table that something before its segments may refuse: by that in order (1 to 8), then
    // its segments.
    #[cold]
    #[inline(never)]
    #[tactic(auto, using(crate::proofs::Checks::checks))]
    pub(crate) fn check_in_order(&self) -> Result<u64, Refusal>
        ensures { result ≡ check_of self.now }
    {
        if self.is_uneven() {
            return Err(Reason::Malformed.at(0));
        }
        self.front_refusal()?;
        self.check_segments()
    }
}
