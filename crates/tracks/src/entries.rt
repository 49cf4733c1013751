//! The entries of a table, and the frames that they are for.
ghost use Rattle.std.specs.Prelude.{◌≡◌, ◌-◌, ◌*◌, ◌%◌, ◌≤◌, length};

use boxes::read::be32;

/// An entry of a stts or ctts (RULES 8.3, 8.4; ISO/IEC 14496-12, 8.6.1).
#[derive(Clone, Copy, Debug, PartialEq, Eq)]
pub struct Run {
    /// For how many frames it is.
    pub count: usize,
    /// Their value: a duration, or an offset as it is stored.
    pub value: u32,
}

/// The payload of a stts or ctts, and how many entries it has, all of which are there: 8 bytes
/// each, from offset 8 on.
#[derive(Clone, Copy, Debug, PartialEq)]
pub struct EntryTable<'a> {
    pub payload: &'a [u8],
    pub entries: usize,
    ghost there: { entries * 8 ≤ length payload.now - 8 },
}

/// The entries that a walk hasn't passed: those from the offset `at` to `end`.
#[derive(Clone, Copy, Debug, PartialEq)]
pub struct Runs<'a> {
    /// The table's payload.
    pub payload: &'a [u8],
    /// The offset of the next entry.
    pub at: usize,
    /// Where the entries end.
    pub end: usize,
    ghost ordered: { at ≤ end },
    ghost there: { end - at ≤ length payload.now - at },
    ghost whole: { (end - at) % 8 ≡ 0 },
}

/// The frames that a walk hasn't passed: what is left of an entry, and the entries after it.
#[derive(Clone, Copy, Debug, PartialEq)]
pub struct Frames<'a> {
    /// What is left of an entry.
    pub run: Run,
    /// The entries after it.
    pub after: Runs<'a>,
}

impl<'a> EntryTable<'a> {
    ghost use Rattle.tracks.specs.Tables.{table_entries, optional_entries, entries_of, durations};
    ghost use Rattle.tracks.specs.Opening.{Opened};
    ghost use Rattle.tracks.specs.Walking.{runs_left, frames_left};

    /// The table of a payload whose entries are all there: one length tells. None where they aren't
    /// (RULES 8.3).
    pub fn of(payload: &'a [u8]) -> Option<EntryTable<'a>>
        ensures { Opened payload.now (table_entries payload.now) result }
    {
        if payload.len() < 8 {
            return None;
        }
        let entries = be32(payload, 4) as usize;
        if payload.len() < entries * 8 + 8 {
            return None;
        }
        Some(EntryTable { payload, entries })
    }

    /// The same of a table that may be absent, as one under 4 bytes is (RULES 8.4).
    pub fn of_optional(payload: &'a [u8]) -> Option<EntryTable<'a>>
        ensures { Opened payload.now (optional_entries payload.now) result }
    {
        if payload.len() < 4 {
            return Some(EntryTable {
                payload,
                entries: 0,
            });
        }
        EntryTable::of(payload)
    }

    /// Its entries, in order.
    pub fn runs(self) -> Runs<'a>
        ensures { runs_left result ≡ entries_of self.entry.entries self.entry.payload.now }
    {
        Runs {
            payload: self.payload,
            at: 8,
            end: self.entries * 8 + 8,
        }
    }

    /// The values of its frames, in order: each entry's as often as it says.
    pub fn frames(self) -> Frames<'a>
        ensures { frames_left result ≡ durations self.entry.entries self.entry.payload.now }
    {
        Frames {
            run: Run { count: 0, value: 0 },
            after: self.runs(),
        }
    }
}

#[tactic(auto, using(crate::proofs::EntryLaws::runs))]
impl Iterator for Runs<'_> {
    ghost use Rattle.std.specs.Iterator.{YieldsFirst, item_count};
    ghost use Rattle.tracks.specs.Walking.{runs_left};

    type Item = Run;

    ghost next_gives = { YieldsFirst runs_left };

    ghost remaining = { item_count runs_left };

    fn next(&mut self) -> Option<Run> {
        let at = self.at;
        if at == self.end {
            return None;
        }
        self.at += 8;
        Some(Run {
            count: be32(self.payload, at) as usize,
            value: be32(self.payload, at + 4),
        })
    }
}

impl Iterator for Frames<'_> {
    ghost use Rattle.std.specs.Iterator.{YieldsFirst, item_count};
    ghost use Rattle.tracks.specs.Walking.{frames_left};

    type Item = u32;

    ghost next_gives = { YieldsFirst frames_left };

    ghost remaining = { item_count frames_left };

    fn next(&mut self) -> Option<u32> {
        while self.run.count == 0 {
            self.run = self.after.next()?;
        }
        self.run.count -= 1;
        Some(self.run.value)
    }
}
