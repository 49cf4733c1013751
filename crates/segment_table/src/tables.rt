//! Tables: the check, both lookups and those of a list of frames, whether a segment continues the
//! one before, the rows of its map.
ghost use Rattle.std.specs.Prelude.{◌≡◌};
ghost use Rattle.rules.specs.Rules.{check_of};
ghost use Rattle.rules.specs.Lookups.{segment_of_frame, segment_of_time, continues_at};
ghost use Rattle.table.specs.Layout.{table_of};
ghost use Rattle.told.specs.Told.{told, itself, yes_or_no};
ghost use Rattle.segment_table.specs.Written.{RowedTold, IndexingTold};

/// Checks a table: its frame total.
/// Lent: a table. Writes frames, index. Refuses: 1 to 17.
#[unsafe(no_mangle)]
pub extern "C" fn st_check(
    sources: &[u64],
    segments: &[u64],
    stamps: &[i64],
    log: bool,
    text: &[u8],
    frames: &mut u64,
    index: &mut u64,
) -> u64
    ensures { (result, frames.new, index.new)
        ≡ told itself (check_of (table_of sources.now segments.now stamps.now log text.now))
        frames.old }
{
    told::tell(
        table::check(sources, segments, stamps, log, text),
        frames,
        index,
    )
}

/// The segment of a frame: the number of segments that end at or before it, at most the last index.
/// Lent: a table. Writes segment, index. Refuses: 1 to 17.
#[unsafe(no_mangle)]
pub extern "C" fn st_segment_of_frame(
    sources: &[u64],
    segments: &[u64],
    stamps: &[i64],
    log: bool,
    text: &[u8],
    frame: u64,
    segment: &mut u64,
    index: &mut u64,
) -> u64
    ensures { (result, segment.new, index.new)
        ≡ told itself
        (segment_of_frame (table_of sources.now segments.now stamps.now log text.now) frame)
        segment.old }
{
    let answer = lookup::segment_of_frame(sources, segments, stamps, log, text, frame);
    told::tell(answer, segment, index)
}

/// The segment of each frame of a list, in any order: what st_segment_of_frame answers of it. The
/// table is checked once, also for an empty list. The frames and out_segments may not be one array.
/// Lent: a table, the frames, and room for one index a frame. Writes out_segments, written (how
/// many), index. Refuses: 1 to 17, 32.
#[unsafe(no_mangle)]
pub extern "C" fn st_segments_of_frames(
    sources: &[u64],
    segments: &[u64],
    stamps: &[i64],
    log: bool,
    text: &[u8],
    frames: &[u64],
    out_segments: &mut [u64],
    written: &mut u64,
    index: &mut u64,
) -> u64
    ensures { IndexingTold (table_of sources.now segments.now stamps.now log text.now) frames.now
        out_segments.old written.old result out_segments.new written.new index.new }
{
    let answer = lookups::segments_of_frames(
        sources,
        segments,
        stamps,
        log,
        text,
        frames,
        out_segments,
    );
    told::tell(answer, written, index)
}

/// The segment of a time in microseconds: the number of segments that end at or before it, at most
/// the last index. Lent: a table. Writes segment, index. Refuses: 1 to 17.
#[unsafe(no_mangle)]
pub extern "C" fn st_segment_of_time_us(
    sources: &[u64],
    segments: &[u64],
    stamps: &[i64],
    log: bool,
    text: &[u8],
    time: i64,
    segment: &mut u64,
    index: &mut u64,
) -> u64
    ensures { (result, segment.new, index.new)
        ≡ told itself
        (segment_of_time (table_of sources.now segments.now stamps.now log text.now) time)
        segment.old }
{
    let answer = lookup::segment_of_time_us(sources, segments, stamps, log, text, time);
    told::tell(answer, segment, index)
}

/// Whether a segment continues the one before it: the same source, source frames that run on, equal
/// shift. Answers 1 or 0, and 0 for the first segment and for one that isn't there. Lent: a table.
/// Writes answer, index. Refuses: 1 to 17.
#[unsafe(no_mangle)]
pub extern "C" fn st_continues(
    sources: &[u64],
    segments: &[u64],
    stamps: &[i64],
    log: bool,
    text: &[u8],
    segment: u64,
    answer: &mut u64,
    index: &mut u64,
) -> u64
    ensures { (result, answer.new, index.new)
        ≡ told yes_or_no
        (continues_at (table_of sources.now segments.now stamps.now log text.now) segment)
        answer.old }
{
    let continues = lookup::continues(sources, segments, stamps, log, text, segment as usize);
    told::tell(continues, answer, index)
}

/// The map of an accepted table: one row a segment, an absent shift as 0. Lent: a table, and room
/// for the rows. Writes the rows, rows (how many), index. Refuses: 1 to 17, 32.
#[unsafe(no_mangle)]
pub extern "C" fn st_rows_of_table(
    sources: &[u64],
    segments: &[u64],
    stamps: &[i64],
    log: bool,
    text: &[u8],
    out_words: &mut [u64],
    out_shifts: &mut [i64],
    rows: &mut u64,
    index: &mut u64,
) -> u64
    ensures { RowedTold (table_of sources.now segments.now stamps.now log text.now) out_words.old
        out_shifts.old rows.old result out_words.new out_shifts.new rows.new index.new }
{
    let answer = table_rows::rows_of_table(
        sources, segments, stamps, log, text, out_words, out_shifts,
    );
    told::tell(answer, rows, index)
}
