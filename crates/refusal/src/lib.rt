//! Why a call refuses: one reason, and the index of what it is about (RULES 2). A call that can
//! refuse answers `Result<T, Refusal>`.
#![tactic(auto)]

ghost use Rattle.std.specs.Prelude.{◌≡◌, ◌<◌, Some, length};
ghost use Rattle.refusal.specs.declared.Reason.{Reason};
ghost use Rattle.refusal.specs.Reasons.{number};
ghost use Rattle.refusal.specs.Refusals.{refusal_at};
ghost use Rattle.refusal.specs.Words.{words, refusal_text};

use std::error::Error;
use std::fmt;

/// A reason, with the number that a C caller is told. `words` says what it is; what more the header
/// and RULES 2.4 say of it stands here before it, and tools/header takes both from this file.
#[derive(Clone, Copy, Debug, PartialEq, Eq)]
pub enum Reason {
    Malformed = 1,
    OverLimit = 2,
    NoSources = 3,
    ZeroInSource = 4,
    BadDate = 5,
    BadClock = 6,
    NoClock = 7,
    NoSegments = 8,
    NoSuchSource = 9,
    NoFrames = 10,
    FramesWrap = 11,
    PastSource = 12,
    NegativeTime = 13,
    /// that is source start plus duration or the capture pair, or, tested after 16, out start
    /// plus duration or its capture pair
    TooLate = 14,
    /// 0 for the first
    FrameGap = 15,
    /// those of the first are free
    TimeGap = 16,
    BadShift = 17,
    TooLarge = 20,
    NoVideo = 21,
    OtherFrameCount = 22,
    /// of a table, the time of a segment's first frame
    NoFrameTime = 23,
    OtherFrameTime = 24,
    /// that is |2 end_us scale - 2 end 1,000,000| over 2 nominal 1,000,000 + scale, where end_us
    /// is the last segment's out start plus duration; the nominal of a constant video is its
    /// denominator, and its scale the numerator
    EndNotNear = 25,
    TooLong = 30,
    /// boxes end where fewer than 8 bytes are left; the size is that of `box_size`
    Missing = 31,
    /// of `cut`, `cuts`, `join` and `merge` that is 52
    NoRoom = 32,
    Outside = 33,
    /// equal neighbours don't
    Falling = 34,
    NoRecordingTimes = 35,
    /// its size isn't whole or doesn't fit, or, of `find_box` with text_types, its type has a
    /// byte outside 20 to 7E hex
    Broken = 36,
    NoTable = 40,
    SeveralTables = 41,
    BadSearch = 42,
    BadRange = 50,
    BadRows = 51,
    /// all cuts of one call together may have more
    RowsDontFit = 52,
    JoinWraps = 53,
    PastMap = 54,
    TextTooLong = 60,
    /// it breaks RFC 8259's grammar, a string holds half a surrogate pair, or bytes are no UTF-8
    NotJson = 61,
    /// at any depth, in members that are skipped too, escapes resolved
    RepeatedName = 62,
    /// or the text's value is no object
    OtherVersion = 63,
    /// what follows the Rust's `SegmentTable::parse`
    BadMember = 64,
}

/// A refusal: its reason, and the index of what it is about. RULES 2.2 says of which the index is.
#[derive(Clone, Copy, Debug, PartialEq, Eq)]
pub struct Refusal {
    pub reason: Reason,
    pub index: usize,
}

impl Reason {
    /// The number that a C caller is told.
    pub fn number(self) -> u64
        ensures { result ≡ number self }
    {
        self as u64
    }

    /// What the reason is, for people. Programs, the header and the Rust package say it so.
    pub fn words(self) -> &'static str
        ensures { result.now ≡ words self }
    {
        match self {
            Reason::Malformed => {
                "a slice length is no multiple of its record, the two segment slices disagree, a \
                 flag or kind is outside its set, or a present creation time's range leaves the \
                 text"
            }
            Reason::OverLimit => "there are over 256 sources or over 512 segments",
            Reason::NoSources => "there are no sources",
            Reason::ZeroInSource => "the source has 0 frames, or a 0 in its frames a second",
            Reason::BadDate => "the source's creation time fails the UTC rule",
            Reason::BadClock => "the source's clock has a 0 in its rate, or the modulus 0",
            Reason::NoClock => "a log is named, and the source has no clock",
            Reason::NoSegments => "there are no segments",
            Reason::NoSuchSource => "the segment names no source of the table",
            Reason::NoFrames => "the segment's frame count is 0",
            Reason::FramesWrap => {
                "the segment's out first or source first plus its frame count passes 2^64 - 1"
            }
            Reason::PastSource => {
                "the segment's source first plus its frame count passes its source's frames"
            }
            Reason::NegativeTime => "one of the segment's six times is below 0",
            Reason::TooLate => "one of the segment's starts plus its duration passes 2^63 - 1",
            Reason::FrameGap => "the segment's out first isn't where the frames before it end",
            Reason::TimeGap => {
                "the segment's out start or out capture start isn't where the times before it end"
            }
            Reason::BadShift => {
                "the segment has a shift and no clock, a clock and no shift, or a shift outside \
                 its clock's modulus"
            }
            Reason::TooLarge => {
                "a rate number or timescale is over 4,294,967,295, or there are over 16,777,216 \
                 starts"
            }
            Reason::NoVideo => "no video is given",
            Reason::OtherFrameCount => "the table's frames aren't as many as the video's",
            Reason::NoFrameTime => "a time can't be had: its scale is 0, or it is outside 64 bits",
            Reason::OtherFrameTime => "the segment's out start isn't its first frame's time",
            Reason::EndNotNear => "the table's end isn't near the video's",
            Reason::TooLong => "over 16,777,216 bytes or timestamps are lent",
            Reason::Missing => {
                "missing: the boxes end without the one that is looked for, no size is whole and \
                 fits, or no frame times can be had"
            }
            Reason::NoRoom => "too little room is lent",
            Reason::Outside => "a start, a span or an end is outside 64 bits",
            Reason::Falling => "the timestamps fall",
            Reason::NoRecordingTimes => {
                "the recording has no frame times: no frames, or a nominal interval of 0"
            }
            Reason::Broken => {
                "broken: before what is looked for stands a broken box header, at the index"
            }
            Reason::NoTable => "the file has no MTRM box: no moov, no udta in it, or none in that",
            Reason::SeveralTables => "the file has more than one MTRM box",
            Reason::BadSearch => {
                "a search range lies outside the bytes, or starts past its end, or an offset lies \
                 past the bytes"
            }
            Reason::BadRange => {
                "a cut's range has no frames, or ends past the map; of many cuts also a range \
                 without its end"
            }
            Reason::BadRows => {
                "a map's rows aren't well formed, slice lengths disagree, or there are no rows"
            }
            Reason::RowsDontFit => {
                "a map has, or would have, over 1,024 rows, or too little room is lent for rows"
            }
            Reason::JoinWraps => "the frames of both maps together pass 2^64 - 1",
            Reason::PastMap => "a frame lies past the map",
            Reason::TextTooLong => "the table's text has over 1,048,576 bytes",
            Reason::NotJson => {
                "the table's text isn't JSON, or over 32 lists and objects stand one in another"
            }
            Reason::RepeatedName => "an object in the table's text has a name twice",
            Reason::OtherVersion => "the table's version isn't 1",
            Reason::BadMember => "a member of the table's text is missing or has another type",
        }
    }

    /// The refusal for this reason, of what stands at an index.
    pub fn at(self, index: usize) -> Refusal
        ensures { result ≡ refusal_at self index }
    {
        Refusal {
            reason: self,
            index,
        }
    }
}

/// Writes its words.
impl fmt::Display for Reason {
    ghost output = { λ reason. Some (words reason) };

    fn fmt<W: fmt::Write>(&self, f: &mut fmt::Formatter<W>) -> fmt::Result {
        f.write_str(self.words())
    }
}

/// Writes its number, its index and its reason's words.
impl fmt::Display for Refusal {
    ghost output = { λ refusal. Some (refusal_text refusal) };

    fn fmt<W: fmt::Write>(&self, f: &mut fmt::Formatter<W>) -> fmt::Result {
        let Refusal { reason, index } = *self;
        write!(f, "refused {} at {index}: {reason}", reason.number())
    }
}

impl Error for Reason {}

impl Error for Refusal {}

/// Each reason has a number of its own, and none has 0, which C is told of an answer.
pub fn numbers_are_reasons_own()
    ensures own { (a b : Reason) → number a ≡ number b → a ≡ b }
    ensures above { (a : Reason) → 0 < number a }
{}

/// Each reason has words, and they are its own.
pub fn words_are_reasons_own()
    ensures own { (a b : Reason) → words a ≡ words b → a ≡ b }
    ensures some { (a : Reason) → 0 < length (words a) }
{}
