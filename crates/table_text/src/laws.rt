// What holds of every table's text.
ghost use Rattle.std.specs.Prelude.{◌≡◌, ℕ, List};
ghost use Rattle.table.specs.Layout.{table_of};
ghost use Rattle.table_text.specs.declared.lists.Lists.{Lists};
ghost use Rattle.table_text.specs.Tables.{table_in};
ghost use Rattle.table_text.specs.Layout.{staged_table, AnswersAs};
ghost use Rattle.table_text.specs.Read.{source_words, segment_words, segment_stamps, date_bytes};

/// The staged table gets the check of the table that the text holds, and has its segments, and its
/// sources but for where their creation times lie: all that a table is asked rests on these.
pub fn a_staged_table_answers_as_the_table()
    ensures { (text : List ℕ) (lists : Lists)
        → AnswersAs (staged_table text lists) (table_in text lists) }
{}

/// The words, stamps and bytes that `read_table` writes, lent as a table, are the table that the
/// text holds.
pub fn the_written_words_are_the_table()
    ensures { (text : List ℕ) (lists : Lists) → table_of (source_words text lists)
        (segment_words text lists) (segment_stamps text lists) lists.log (date_bytes text lists)
        ≡ table_in text lists }
{}
