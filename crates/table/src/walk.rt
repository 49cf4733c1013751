// A table's segments, one after another: what refuses one of them (9 to 17 of RULES 3.4).
ghost use Rattle.std.specs.Prelude.{◌≡◌, false, ℕ, ◌<◌, length};
ghost use Rattle.rules.specs.Records.{segment};
ghost use Rattle.rules.specs.Walks.{turn_of, PassingOf, EndFits, end_before};
ghost use Rattle.rules.specs.Rules.{check_of};
ghost use Rattle.table.specs.FirstWalk.{FineFront, Passed, StoppedAt, FirstWalk};

use crate::SegmentTable;
use crate::layout::Segments;
use refusal::{Reason, Refusal};
use rules::{Ends, Segment};

// What a walk finds that asks only whether nothing refuses: the table's frames; the first segment
// that is refused; or that something before the segments may refuse it, which is then tested in
// order.
pub(crate) enum Walked {
    Frames(u64),
    Stopped(usize),
    InOrder,
}

impl<'a, S: Segments> SegmentTable<'a, S> {
    // Where a segment ends, after one that ends at `previous`, or what refuses it (9 to 17).
    #[tactic(auto, using(crate::proofs::Checks::turns))]
    fn turn_of(&self, previous: Ends, segment: Segment) -> Result<Ends, Reason>
        ensures { result ≡ turn_of self.now.sources previous segment }
    {
        let from = segment.words.source as usize;
        if from >= self.source_count() {
            return Err(Reason::NoSuchSource);
        }
        rules::turn_of(
            self.source(from),
            previous,
            segment.words,
            rules::times_of(segment.stamps),
        )
    }

    // Passes a segment, after one that ends at `previous`: where it ends, or no end where its flag
    // (1) or anything else (9 to 17) refuses it.
    fn pass(&self, previous: Ends, segment: Segment) -> Ends
        ensures { PassingOf self.now.sources previous segment result }
    {
        let from = segment.words.source as usize;
        if from >= self.source_count() {
            return rules::no_end();
        }
        rules::pass(self.source(from), previous, segment)
    }

    // The frames of segments that all pass, or the first that is refused. For which reason isn't
    // asked, so that few tests are needed: most tables are accepted.
    #[inline(always)]
    fn walk(&self) -> Result<u64, usize>
        requires { self.now.uneven ≡ false }
        ensures { Passed self.now.sources self.now.segments result }
    {
        let count = self.segment_count();
        let mut previous = rules::no_end();
        for k in 0..count {
            let next = self.pass(previous, self.segment(k));
            if !next.some {
                return Err(k);
            }
            previous = next;
        }
        Ok(previous.frame)
    }

    // Asks whether nothing refuses the table. A function of its own, so that the walk has the
    // registers to itself.
    #[inline(never)]
    #[tactic(auto, using(crate::proofs::Checks::checks), unfolding(crate::specs::FirstWalk::Passed, crate::specs::FirstWalk::FirstWalk))]
    pub(crate) fn first_walk(&self) -> Walked
        ensures { FirstWalk self.now result }
    {
        if self.is_uneven() {
            return Walked::InOrder;
        }
        if !self.has_fine_front() {
            return Walked::InOrder;
        }
        match self.walk() {
            Ok(frames) => Walked::Frames(frames),
            Err(k) => Walked::Stopped(k),
        }
    }

    // Checks the segments of a table that nothing else refuses (2 to 8, and 1 of its sources).
    #[tactic(auto, using(crate::proofs::Checks::checks), unfolding(crate::specs::FirstWalk::Passed))]
    pub(crate) fn check_segments(&self) -> Result<u64, Refusal>
        requires even { self.now.uneven ≡ false }
        requires fine { FineFront self.now }
        ensures { result ≡ check_of self.now }
    {
        match self.walk() {
            Ok(frames) => Ok(frames),
            Err(k) => self.refused_at(k),
        }
    }

    // Where the segment before number k ends.
    #[tactic(auto, using(crate::proofs::Checks::ends_before))]
    fn end_before(&self, k: usize) -> Ends
        requires even { self.now.uneven ≡ false }
        requires inside { k < length self.now.segments }
        requires fits { (j : ℕ) → j < k → EndFits (segment self.now j) }
        ensures { result ≡ end_before self.now.segments k }
    {
        if k == 0 {
            return rules::no_end();
        }
        rules::end_of(self.segment(k - 1))
    }

    // Refuses a table whose walk stopped at segment k: by the flag of any segment (1), or by what
    // refuses that one, since nothing refuses those before it.
    #[cold]
    #[inline(never)]
    #[tactic(auto, using(crate::proofs::Checks::stops))]
    pub(crate) fn refused_at(&self, k: usize) -> Result<u64, Refusal>
        requires { StoppedAt self.now k }
        ensures { result ≡ check_of self.now }
    {
        if self.has_bad_flag() {
            return Err(Reason::Malformed.at(0));
        }
        match self.turn_of(self.end_before(k), self.segment(k)) {
            Err(reason) => Err(reason.at(k)),
            // it doesn't: the walk stopped there
            Ok(next) => Ok(next.frame),
        }
    }
}
