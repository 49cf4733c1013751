//! A table's text, JSON as RFC 8259 has it: the table that it holds, its sources' names, and any of
//! its strings.
ghost use Rattle.segment_table.specs.Texts.{ReadTold, NamesTold, StringTold};

use told::texts::TableRead;

/// Reads a table's text: the words, stamps and creation times that all other calls are lent of a
/// table, its frame total, and whether it names a telemetry log. All of the text is tested before
/// anything is written: first that it is JSON, then that no object has a name twice, then its
/// version, then each member by its type, and then the table as st_check does, with its indices. A
/// member that no table needs may hold anything. Words of an absent thing are 0.
/// Lent: the text (of a file, what st_table_text finds); room for the sources, the segments, their
/// stamps and the creation times' bytes; a working slice of a quarter as many words as the text has
/// bytes, rounded up, and at least 3,840. 3,328 words, 2,560 words, 3,584 stamps and as many bytes as
/// the text has are enough for every table. To other calls lend what was written, not the room:
/// thirteen words a source, five words and seven stamps a segment, and the creation times as their
/// text. Writes sources, segments, stamps, dates, work (all 0), read, index. Refuses: 60,
/// 32 (the working slice), 61 to 64, 2, 32, 3 to 17.
#[unsafe(no_mangle)]
pub extern "C" fn st_read_table(
    text: &[u8],
    sources: &mut [u64],
    segments: &mut [u64],
    stamps: &mut [i64],
    dates: &mut [u8],
    work: &mut [u64],
    read: &mut TableRead,
    index: &mut u64,
) -> u64
    ensures { ReadTold text.now sources.old segments.old stamps.old dates.old work.old read.old
        result sources.new segments.new stamps.new dates.new work.new read.new index.new }
{
    let answer = table_meaning::read_table(text, sources, segments, stamps, dates, work);
    told::tell(answer, read, index)
}

/// Where the names of a table's sources stand in its text: two words a source, where the name starts
/// and how long it is, in bytes, without its quotation marks and with its escapes as they stand.
/// st_json_string, lent the start less one, resolves them. The text is tested as st_read_table tests
/// it, but not the table.
/// Lent: the text; room for two words a source; a working slice as long as that of st_read_table.
/// Writes names, work (all 0), count (how many sources), index. Refuses: 60, 32 (the working slice),
/// 61 to 64, 2, 32.
#[unsafe(no_mangle)]
pub extern "C" fn st_source_names(
    text: &[u8],
    names: &mut [u64],
    work: &mut [u64],
    count: &mut u64,
    index: &mut u64,
) -> u64
    ensures { NamesTold text.now names.old work.old count.old result names.new work.new count.new
        index.new }
{
    let answer = table_meaning::source_names(text, names, work);
    told::tell(answer, count, index)
}

/// The bytes of a string that stands in a text, in UTF-8, its escapes resolved: that whose opening
/// quotation mark stands at offset `at`. Nothing before it, and nothing after its closing quotation
/// mark, is looked at. It is 61 where no whole string stands there.
/// Lent: the text; room for the bytes, which are no more than stand between the quotation marks.
/// Writes out, length (how many bytes), index. Refuses: 60, 61, 32.
#[unsafe(no_mangle)]
pub extern "C" fn st_json_string(
    text: &[u8],
    at: u64,
    out: &mut [u8],
    length: &mut u64,
    index: &mut u64,
) -> u64
    ensures { StringTold text.now at out.old length.old result out.new length.new index.new }
{
    let answer = json_strings::reading::string_into(text, at as usize, out);
    told::tell(answer, length, index)
}
