//! Maps: cut, many cuts, join, merge, the origin of a frame, and those of a list of frames.
ghost use Rattle.std.specs.Prelude.{◌≡◌};
ghost use Rattle.told.specs.Told.{told, origin_words};
ghost use Rattle.segment_table.specs.Written.{CutTold, CutsTold, JoinTold, MergeTold, OriginsTold, origin_of};

use rows::Origin;

/// The frames start..end of a map as a map: each row's overlap, counted from start. Lent: a map, and
/// room for the rows. Writes the rows, rows (how many), index. Refuses: 51, 52, 50, 52.
#[unsafe(no_mangle)]
pub extern "C" fn st_cut(
    words: &[u64],
    shifts: &[i64],
    start: u64,
    end: u64,
    out_words: &mut [u64],
    out_shifts: &mut [i64],
    rows: &mut u64,
    index: &mut u64,
) -> u64
    ensures { CutTold words.now shifts.now start end out_words.old out_shifts.old rows.old result
        out_words.new out_shifts.new rows.new index.new }
{
    let answer = maps::cut(words, shifts, start, end, out_words, out_shifts);
    told::tell(answer, rows, index)
}

/// Cuts of several ranges of a map, which is tested once: of each range the rows that st_cut writes,
/// one cut after the other. Lent: a map; ranges, two words each, start and end, or none; room for
/// the rows of all cuts, and for a count of each. Writes the rows, counts (how many each cut has),
/// rows (how many in all, which may be over 1,024), index. Refuses: 51, 52, 50, 52.
#[unsafe(no_mangle)]
pub extern "C" fn st_cuts(
    words: &[u64],
    shifts: &[i64],
    ranges: &[u64],
    out_words: &mut [u64],
    out_shifts: &mut [i64],
    counts: &mut [u64],
    rows: &mut u64,
    index: &mut u64,
) -> u64
    ensures { CutsTold words.now shifts.now ranges.now out_words.old out_shifts.old counts.old
        rows.old result out_words.new out_shifts.new counts.new rows.new index.new }
{
    let answer = cuts::cuts(words, shifts, ranges, out_words, out_shifts, counts);
    told::tell(answer, rows, index)
}

/// Two maps as one, the second after the first.
/// Lent: two maps, and room for the rows. Writes the rows, rows (how many), index. Refuses: 51 (of
/// the first map, then of the second), 52, 53, 52.
#[unsafe(no_mangle)]
pub extern "C" fn st_join(
    words: &[u64],
    shifts: &[i64],
    second_words: &[u64],
    second_shifts: &[i64],
    out_words: &mut [u64],
    out_shifts: &mut [i64],
    rows: &mut u64,
    index: &mut u64,
) -> u64
    ensures { JoinTold words.now shifts.now second_words.now second_shifts.now out_words.old
        out_shifts.old rows.old result out_words.new out_shifts.new rows.new index.new }
{
    let answer = maps::join(
        words,
        shifts,
        second_words,
        second_shifts,
        out_words,
        out_shifts,
    );
    told::tell(answer, rows, index)
}

/// A map with one row of neighbours that continue: the same source, frames that run on, flag and
/// shift equal. Lent: a map, and room for the rows. Writes the rows, rows (how many), index.
/// Refuses: 51, 52, 52.
#[unsafe(no_mangle)]
pub extern "C" fn st_merge(
    words: &[u64],
    shifts: &[i64],
    out_words: &mut [u64],
    out_shifts: &mut [i64],
    rows: &mut u64,
    index: &mut u64,
) -> u64
    ensures { MergeTold words.now shifts.now out_words.old out_shifts.old rows.old result
        out_words.new out_shifts.new rows.new index.new }
{
    let answer = maps::merge(words, shifts, out_words, out_shifts);
    told::tell(answer, rows, index)
}

/// Where a frame comes from: its source, its frame there, the shift's flag (1 present, 0 absent) and
/// the shift. Lent: a map. Writes source, source_frame, flag, shift, index. Refuses: 51, 52, 54.
#[unsafe(no_mangle)]
pub extern "C" fn st_origin(
    words: &[u64],
    shifts: &[i64],
    frame: u64,
    source: &mut u64,
    source_frame: &mut u64,
    flag: &mut u64,
    shift: &mut i64,
    index: &mut u64,
) -> u64
    ensures { (result, (source.new, source_frame.new, flag.new, shift.new), index.new)
        ≡ told origin_words (origin_of words.now shifts.now frame)
        (source.old, source_frame.old, flag.old, shift.old) }
{
    let answer = maps::origin(words, shifts, frame);
    told::several::tell_origin(answer, source, source_frame, flag, shift, index)
}

/// Where each frame of a list comes from, in any order: what st_origin answers of it, as one struct a
/// frame. The map is tested once, also for an empty list. Lent: a map, the frames, and room for one
/// origin a frame. Writes out_origins, written (how many), index. Refuses: 51, 52, 54, 32.
#[unsafe(no_mangle)]
pub extern "C" fn st_origins(
    words: &[u64],
    shifts: &[i64],
    frames: &[u64],
    out_origins: &mut [Origin],
    written: &mut u64,
    index: &mut u64,
) -> u64
    ensures { OriginsTold words.now shifts.now frames.now out_origins.old written.old result
        out_origins.new written.new index.new }
{
    let answer = maps::origins(words, shifts, frames, out_origins);
    told::tell(answer, written, index)
}
