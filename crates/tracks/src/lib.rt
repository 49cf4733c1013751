//! What the boxes of a track say (ISO/IEC 14496-12): its timescale, its tables of durations and
//! offsets, its edit list. RULES 8.2 to 8.5.
#![tactic(auto)]

pub mod edits;
pub mod entries;
pub mod tables;

/// An entry of an edit list (RULES 8.5; ISO/IEC 14496-12, 8.6.6): its duration in ticks of the
/// movie's scale, its time in ticks of the track's, below 0 too, and its rate, 16 bits before the
/// point and 16 after it.
#[derive(Clone, Copy, Debug, PartialEq, Eq)]
pub struct EditEntry {
    pub duration: u64,
    pub time: i64,
    pub rate: u32,
}

/// What an edit list says (RULES 8.5), in ticks of the track's scale.
#[derive(Clone, Copy, Debug, PartialEq, Eq)]
pub struct Edit {
    /// Whether there is an edit.
    pub edited: bool,
    /// From which time in the media it keeps frames.
    pub time: i64,
    /// To which time; none where it is open.
    pub end: Option<i64>,
    /// After how many empty ticks the frames start.
    pub empty: i64,
}
