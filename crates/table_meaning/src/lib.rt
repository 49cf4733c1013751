//! A table's text, RFC 8259's JSON, read into lent words: what it answers and writes is said of the
//! value that the grammar gives the text, and not of where things stand in it. The Rust's
//! `SegmentTable::parse`.
#![tactic(auto)]

ghost use Rattle.std.specs.Prelude.{ℕ, List};
ghost use Rattle.rules.specs.Grounds.{Rightly};
ghost use Rattle.table_text.specs.declared.reader.Room.{Room};
ghost use Rattle.table_meaning.specs.Answer.{Reads, reading, answer_of};
ghost use Rattle.table_meaning.specs.Names.{NamesRead};
ghost use Rattle.table_meaning.specs.Grounds.{text_tests, text_total, frames_read};
ghost use Rattle.table_meaning.specs.Claims.{WrittenTablesAreAccepted, NamesStandInTheirText};
ghost use Rattle.table_meaning.specs.Examples.{WorkedExamples, TooLong};

use refusal::Refusal;
use table_text::Read;

/// Reads a table's text: its sources' words, thirteen each, its segments' words and stamps, five and
/// seven each, and the bytes of its creation times, over the first of those that are lent. The rest of
/// them stays, and all of them where the text is refused. The working room is left zero.
///
/// Refuses, in this order, with index 0 where nothing else is said: `TextTooLong` for over 1,048,576
/// bytes; `NoRoom`, index 1, where the working room has fewer words than the greater of 3,840 and a
/// quarter of the text's bytes; `NotJson`; `RepeatedName`, by any object of the text; `OtherVersion`;
/// `BadMember` for one that is missing or of another type; `OverLimit`; `NoRoom`; and as a check of
/// the table does.
#[tactic(auto, using(crate::proofs::Whole::readings))]
pub fn read_table(
    text: &[u8],
    sources: &mut [u64],
    words: &mut [u64],
    stamps: &mut [i64],
    dates: &mut [u8],
    work: &mut [u64],
) -> Result<Read, Refusal>
    ensures { Reads text.now sources.old words.old stamps.old dates.old work.old result
        sources.new words.new stamps.new dates.new work.new }
{
    table_text::read_table(text, sources, words, stamps, dates, work)
}

/// Where the names of a table's sources stand in its text, two words a source, over the first of
/// those that are lent: the offset of the name's first byte and how many bytes it has, without the
/// quotation marks and with escapes as they are written. Answers how many sources there are. The rest
/// stays, and all of it where the text is refused. The working room is left zero.
///
/// Refuses as `read_table` does, up to `NoRoom` for the answer; the table isn't checked.
#[tactic(auto, using(crate::proofs::Whole::namings))]
pub fn source_names(text: &[u8], out: &mut [u64], work: &mut [u64]) -> Result<usize, Refusal>
    ensures { NamesRead text.now out.old work.old result out.new work.new }
{
    table_text::source_names(text, out, work)
}

/// A theorem: a table's text is refused with the first condition of RULES 15.6 that holds, and read
/// where none does.
#[tactic(auto, using(crate::proofs::Rightly::texts_rightly))]
pub fn refusals_of_texts_are_right()
    ensures { (text : List ℕ) (room : Room) →
        Rightly (frames_read (answer_of (reading text room))) (text_tests text room) (text_total text) }
{}

/// A theorem: what `read_table` writes, lent as a table, is the table that was judged, and a check of
/// it answers as many frames as were answered.
#[tactic(auto, using(crate::proofs::Claims::accepted_tables))]
pub fn written_tables_are_accepted()
    ensures { WrittenTablesAreAccepted }
{}

/// A theorem: the characters of each source's name stand where `source_names` says.
#[tactic(auto, using(crate::proofs::Claims::names_stand))]
pub fn names_stand_in_their_text()
    ensures { NamesStandInTheirText }
{}

/// A theorem: the definitions give the numbers of specs/Examples.antt.
pub fn worked_examples_hold()
    ensures worked { WorkedExamples }
    ensures too_long { TooLong }
{}
