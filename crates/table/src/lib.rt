//! A table as it is lent, RULES 1.4, and its check: once for every layout of its segments. The
//! Rust's `SegmentTable`.
#![tactic(auto)]

ghost use Rattle.std.specs.Prelude.{◌≡◌, false, ◌<◌, length, Ok, Err, MatchResult};
ghost use Rattle.rules.specs.Records.{Table, source, segment};
ghost use Rattle.rules.specs.Rules.{check_of};
ghost use Rattle.table.specs.Layout.{table_with, table_of};
ghost use Rattle.table.specs.Examples.{WorkedExamples};

mod front;
pub mod layout;
pub mod sources;
mod walk;

use layout::{SegmentWords, Segments};
use refusal::Refusal;
use rules::{Segment, Source};
use sources::Sources;
use std::marker::Model;
use walk::Walked;

/// A table as it is lent (RULES 1.4). In a contract it is the records that it holds, whatever the
/// layout of its segments.
#[derive(Debug, Drop)]
pub struct SegmentTable<'a, S: Segments> {
    /// Its sources, thirteen words each.
    pub sources: Sources<'a>,
    /// Its segments, in a layout.
    pub segments: S,
    /// The bytes of its creation times.
    pub text: &'a [u8],
    /// Whether it names a telemetry log.
    pub log: bool,
}

impl<'a, S: Segments> Model for SegmentTable<'a, S> {
    ghost Value = { Table };

    ghost view = { λ table. table_with table.sources.words.now (S.uneven table.segments)
        (S.listed table.segments) table.log table.text.now };
}

/// A table that its check accepts: what is asked of it checks nothing again.
#[derive(Debug, Drop)]
pub struct Accepted<'t, 'a, S: Segments> {
    /// The table.
    pub table: &'t SegmentTable<'a, S>,
    /// How many frames it has: where the frames of its last segment end.
    pub frames: u64,
    ghost checked: { check_of table.now ≡ Ok frames },
}

/// What is a table in contracts. Crates above add methods by traits over this one.
pub trait Tabled {
    // The table that it is.
    ghost table: { Self → Table };
}

impl<S: Segments> Tabled for SegmentTable<'_, S> {
    ghost table = { λ table. table };
}

impl<S: Segments> Tabled for Accepted<'_, '_, S> {
    ghost table = { λ accepted. accepted.table.now };
}

impl<'a> SegmentTable<'a, SegmentWords<'a>> {
    /// The table whose segments are lent as words, five unsigned ones and seven signed ones each
    /// (RULES 1.3). Nothing is tested yet.
    #[inline(always)]
    #[tactic(auto, unfolding(crate::specs::Layout::table_of))]
    pub fn of_words(
        sources: &'a [u64],
        words: &'a [u64],
        stamps: &'a [i64],
        log: bool,
        text: &'a [u8],
    ) -> Self
        ensures { result ≡ table_of sources.now words.now stamps.now log text.now }
    {
        SegmentTable {
            sources: Sources { words: sources },
            segments: SegmentWords { words, stamps },
            text,
            log,
        }
    }
}

impl<'a, S: Segments> SegmentTable<'a, S> {
    /// Whether the lent lengths don't fit (`Malformed`, 1). Nothing is read of such a table.
    #[inline(always)]
    pub fn is_uneven(&self) -> bool
        ensures { result ≡ self.now.uneven }
    {
        self.sources.is_uneven() | self.segments.is_uneven()
    }

    /// How many sources it has.
    #[inline(always)]
    pub fn source_count(&self) -> usize
        ensures { result ≡ length self.now.sources }
    {
        self.sources.count()
    }

    /// Source k.
    #[inline(always)]
    pub fn source(&self, k: usize) -> Source
        requires { k < length self.now.sources }
        ensures { result ≡ source self.now k }
    {
        self.sources.source(k)
    }

    /// How many segments it has.
    #[inline(always)]
    pub fn segment_count(&self) -> usize
        ensures { result ≡ length self.now.segments }
    {
        self.segments.count()
    }

    /// Segment k, of lengths that fit.
    #[inline(always)]
    pub fn segment(&self, k: usize) -> Segment
        requires even { self.now.uneven ≡ false }
        requires inside { k < length self.now.segments }
        ensures { result ≡ segment self.now k }
    {
        self.segments.segment(k)
    }

    /// Its frame total, or why it is refused: by one of `Malformed` (1) to `BadShift` (17), in the
    /// order of RULES 3.1. The Rust's `check`.
    // Most tables are accepted: that is asked first.
    #[inline(always)]
    #[tactic(auto, unfolding(crate::specs::FirstWalk::FirstWalk))]
    pub fn check(&self) -> Result<u64, Refusal>
        ensures { result ≡ check_of self.now }
    {
        match self.first_walk() {
            Walked::Frames(frames) => Ok(frames),
            Walked::Stopped(k) => self.refused_at(k),
            Walked::InOrder => self.check_in_order(),
        }
    }

    /// The table as one that is accepted, or why it is refused: the check, of which the answer is
    /// kept.
    #[inline(always)]
    pub fn accepted(&self) -> Result<Accepted<'_, 'a, S>, Refusal>
        ensures { MatchResult result
            (λ accepted. (accepted.table.now ≡ self.now) × (check_of self.now ≡ Ok accepted.frames))
            (λ why. check_of self.now ≡ Err why) }
    {
        let frames = self.check()?;
        Ok(Accepted {
            table: self,
            frames,
        })
    }
}

#[tactic(auto, using(crate::proofs::Known::even, crate::proofs::Known::some))]
impl<'t, 'a, S: Segments> Accepted<'t, 'a, S> {
    /// How many segments it has: at least one.
    #[inline(always)]
    pub fn segment_count(&self) -> usize
        ensures is { result ≡ length self.now.table.now.segments }
        ensures some { 0 < result }
    {
        self.table.segment_count()
    }

    /// Segment k.
    #[inline(always)]
    pub fn segment(&self, k: usize) -> Segment
        requires { k < length self.now.table.now.segments }
        ensures { result ≡ segment self.now.table.now k }
    {
        self.table.segment(k)
    }
}

/// The check of a table that is lent as words: thirteen a source, five unsigned and seven signed ones a
/// segment, the bytes of the creation times. Refuses as `SegmentTable::check`.
#[inline(always)]
pub fn check(
    sources: &[u64],
    words: &[u64],
    stamps: &[i64],
    log: bool,
    text: &[u8],
) -> Result<u64, Refusal>
    ensures { result ≡ check_of (table_of sources.now words.now stamps.now log text.now) }
{
    SegmentTable::of_words(sources, words, stamps, log, text).check()
}

/// The definitions give the numbers of specs/Examples.antt.
pub fn worked_examples_hold()
    ensures { WorkedExamples }
{}
