//! Made by tools/calls: of each call a function with its parameters that only calls it. It asks
//! nothing, so it proves only where the call asks nothing; and it promises what specs/Calls.antt
//! quotes, so it proves only where the call promises that: `quoted` by name, and `placed` as the
//! record has it, by the places of the arguments and of what is left. That no other end meets the
//! record is claimed by `OneAnswer` (specs/Promise.antt).
ghost use Rattle.audit.specs.Promise.{Regions, Says};
ghost use Rattle.audit.specs.Calls as calls;

use boxes::{BoxAt, BoxSize, Place};
use judge::Video;
use records::TrimSegment;
use refusal::Refusal;
use rows::Origin;
use table_text::Read;
use ticks::FrameTimes;

/// What is quoted of `ticks::ticks_to_us` is promised, and nothing is asked.
pub fn ticks_to_us(ticks: i64, scale: u64) -> Result<i64, Refusal>
    ensures quoted { calls.TicksToUs ticks scale result }
    ensures placed { (κs : Regions calls.ticks-to-us) → Says calls.ticks-to-us κs
        (ticks, (scale, tt))
        (record { result = result; last = (tt, (tt, tt)) }) }
{
    ticks::ticks_to_us(ticks, scale)
}

/// What is quoted of `utc::is_utc_second` is promised, and nothing is asked.
pub fn is_utc_second(bytes: &[u8]) -> bool
    ensures quoted { calls.IsUtcSecond bytes.now result }
    ensures placed { (κs : Regions calls.is-utc-second) → Says calls.is-utc-second κs
        (bytes.entry, tt)
        (record { result = result; last = (tt, tt) }) }
{
    utc::is_utc_second(bytes)
}

/// What is quoted of `table::check` is promised, and nothing is asked.
pub fn check(
    sources: &[u64],
    words: &[u64],
    stamps: &[i64],
    log: bool,
    text: &[u8],
) -> Result<u64, Refusal>
    ensures quoted { calls.Check sources.now words.now stamps.now log text.now result }
    ensures placed { (κs : Regions calls.check) → Says calls.check κs
        (sources.entry, (words.entry, (stamps.entry, (log, (text.entry, tt)))))
        (record { result = result; last = (tt, (tt, (tt, (tt, (tt, tt))))) }) }
{
    table::check(sources, words, stamps, log, text)
}

/// What is quoted of `lookup::segment_of_frame` is promised, and nothing is asked.
pub fn segment_of_frame(
    sources: &[u64],
    words: &[u64],
    stamps: &[i64],
    log: bool,
    text: &[u8],
    frame: u64,
) -> Result<usize, Refusal>
    ensures quoted { calls.SegmentOfFrame sources.now words.now stamps.now log text.now frame result }
    ensures placed { (κs : Regions calls.segment-of-frame) → Says calls.segment-of-frame κs
        (sources.entry, (words.entry, (stamps.entry, (log, (text.entry, (frame, tt))))))
        (record { result = result; last = (tt, (tt, (tt, (tt, (tt, (tt, tt)))))) }) }
{
    lookup::segment_of_frame(sources, words, stamps, log, text, frame)
}

/// What is quoted of `lookup::segment_of_time_us` is promised, and nothing is asked.
pub fn segment_of_time_us(
    sources: &[u64],
    words: &[u64],
    stamps: &[i64],
    log: bool,
    text: &[u8],
    time: i64,
) -> Result<usize, Refusal>
    ensures quoted { calls.SegmentOfTimeUs sources.now words.now stamps.now log text.now time result }
    ensures placed { (κs : Regions calls.segment-of-time-us) → Says calls.segment-of-time-us κs
        (sources.entry, (words.entry, (stamps.entry, (log, (text.entry, (time, tt))))))
        (record { result = result; last = (tt, (tt, (tt, (tt, (tt, (tt, tt)))))) }) }
{
    lookup::segment_of_time_us(sources, words, stamps, log, text, time)
}

/// What is quoted of `lookup::continues` is promised, and nothing is asked.
pub fn continues(
    sources: &[u64],
    words: &[u64],
    stamps: &[i64],
    log: bool,
    text: &[u8],
    number: usize,
) -> Result<bool, Refusal>
    ensures quoted { calls.Continues sources.now words.now stamps.now log text.now number result }
    ensures placed { (κs : Regions calls.continues) → Says calls.continues κs
        (sources.entry, (words.entry, (stamps.entry, (log, (text.entry, (number, tt))))))
        (record { result = result; last = (tt, (tt, (tt, (tt, (tt, (tt, tt)))))) }) }
{
    lookup::continues(sources, words, stamps, log, text, number)
}

/// What is quoted of `table_rows::rows_of_table` is promised, and nothing is asked.
pub fn rows_of_table(
    sources: &[u64],
    words: &[u64],
    stamps: &[i64],
    log: bool,
    text: &[u8],
    out_words: &mut [u64],
    out_shifts: &mut [i64],
) -> Result<usize, Refusal>
    ensures quoted { calls.RowsOfTable sources.now words.now stamps.now log text.now out_words.old
        out_shifts.old result out_words.new out_shifts.new }
    ensures placed { (κs : Regions calls.rows-of-table) → Says calls.rows-of-table κs
        (sources.entry, (words.entry, (stamps.entry, (log, (text.entry, (out_words.entry, (out_shifts.entry, tt)))))))
        (record { result = result; last = (tt, (tt, (tt, (tt, (tt, (out_words.new, (out_shifts.new, tt))))))) }) }
{
    table_rows::rows_of_table(sources, words, stamps, log, text, out_words, out_shifts)
}

/// What is quoted of `lookups::segments_of_frames` is promised, and nothing is asked.
pub fn segments_of_frames(
    sources: &[u64],
    words: &[u64],
    stamps: &[i64],
    log: bool,
    text: &[u8],
    frames: &[u64],
    out: &mut [u64],
) -> Result<usize, Refusal>
    ensures quoted { calls.SegmentsOfFrames sources.now words.now stamps.now log text.now frames.now
        out.old result out.new }
    ensures placed { (κs : Regions calls.segments-of-frames) → Says calls.segments-of-frames κs
        (sources.entry, (words.entry, (stamps.entry, (log, (text.entry, (frames.entry, (out.entry, tt)))))))
        (record { result = result; last = (tt, (tt, (tt, (tt, (tt, (tt, (out.new, tt))))))) }) }
{
    lookups::segments_of_frames(sources, words, stamps, log, text, frames, out)
}

/// What is quoted of `judge::validate` is promised, and nothing is asked.
pub fn validate(
    sources: &[u64],
    words: &[u64],
    stamps: &[i64],
    log: bool,
    text: &[u8],
    video: Video,
    starts: &[i64],
) -> Result<u64, Refusal>
    ensures quoted { calls.Validate sources.now words.now stamps.now log text.now video starts.now
        result }
    ensures placed { (κs : Regions calls.validate) → Says calls.validate κs
        (sources.entry, (words.entry, (stamps.entry, (log, (text.entry, (video, (starts.entry, tt)))))))
        (record { result = result; last = (tt, (tt, (tt, (tt, (tt, (tt, (tt, tt))))))) }) }
{
    judge::validate(sources, words, stamps, log, text, video, starts)
}

/// What is quoted of `judge::check_mcraw` is promised, and nothing is asked.
pub fn check_mcraw(
    sources: &[u64],
    words: &[u64],
    stamps: &[i64],
    log: bool,
    text: &[u8],
    timestamps: &[i64],
    first_work: &mut [i64],
    second_work: &mut [i64],
) -> Result<u64, Refusal>
    ensures quoted { calls.CheckMcraw sources.now words.now stamps.now log text.now timestamps.now
        first_work.old second_work.old result first_work.new second_work.new }
    ensures placed { (κs : Regions calls.check-mcraw) → Says calls.check-mcraw κs
        (sources.entry, (words.entry, (stamps.entry, (log, (text.entry, (timestamps.entry, (first_work.entry, (second_work.entry, tt))))))))
        (record { result = result; last = (tt, (tt, (tt, (tt, (tt, (tt, (first_work.new, (second_work.new, tt)))))))) }) }
{
    judge::check_mcraw(
        sources,
        words,
        stamps,
        log,
        text,
        timestamps,
        first_work,
        second_work,
    )
}

/// What is quoted of `boxes::box_size` is promised, and nothing is asked.
pub fn box_size(data: &[u8], remaining: u64) -> Result<BoxSize, Refusal>
    ensures quoted { calls.BoxSize «data».now remaining result }
    ensures placed { (κs : Regions calls.box-size) → Says calls.box-size κs
        («data».entry, (remaining, tt))
        (record { result = result; last = (tt, (tt, tt)) }) }
{
    boxes::box_size(data, remaining)
}

/// What is quoted of `boxes::children` is promised, and nothing is asked.
pub fn children(payload: &[u8], at: usize) -> Result<BoxAt, Refusal>
    ensures quoted { calls.Children payload.now at result }
    ensures placed { (κs : Regions calls.children) → Says calls.children κs
        (payload.entry, (at, tt))
        (record { result = result; last = (tt, (tt, tt)) }) }
{
    boxes::children(payload, at)
}

/// What is quoted of `boxes::child_place` is promised, and nothing is asked.
pub fn child_place(payload: &[u8], kind: u32) -> Result<Place, Refusal>
    ensures quoted { calls.ChildPlace payload.now kind result }
    ensures placed { (κs : Regions calls.child-place) → Says calls.child-place κs
        (payload.entry, (kind, tt))
        (record { result = result; last = (tt, (tt, tt)) }) }
{
    boxes::child_place(payload, kind)
}

/// What is quoted of `boxes::child` is promised, and nothing is asked.
pub fn child(payload: &[u8], kind: u32) -> &[u8]
    ensures quoted { calls.Child payload.entry kind result }
    ensures placed { (κs : Regions calls.child) → Says calls.child κs
        (payload.entry, (kind, tt))
        (record { result = result; last = (tt, (tt, tt)) }) }
{
    boxes::child(payload, kind)
}

/// What is quoted of `boxes::find_box_place` is promised, and nothing is asked.
pub fn find_box_place(
    bytes: &[u8],
    start: usize,
    end: usize,
    kind: u32,
    text_types: bool,
) -> Result<Place, Refusal>
    ensures quoted { calls.FindBoxPlace bytes.now start end kind text_types result }
    ensures placed { (κs : Regions calls.find-box-place) → Says calls.find-box-place κs
        (bytes.entry, (start, (end, (kind, (text_types, tt)))))
        (record { result = result; last = (tt, (tt, (tt, (tt, (tt, tt))))) }) }
{
    boxes::find_box_place(bytes, start, end, kind, text_types)
}

/// What is quoted of `boxes::find_box` is promised, and nothing is asked.
pub fn find_box(bytes: &[u8], start: usize, end: usize, kind: u32, text_types: bool) -> &[u8]
    ensures quoted { calls.FindBox bytes.entry start end kind text_types result }
    ensures placed { (κs : Regions calls.find-box) → Says calls.find-box κs
        (bytes.entry, (start, (end, (kind, (text_types, tt)))))
        (record { result = result; last = (tt, (tt, (tt, (tt, (tt, tt))))) }) }
{
    boxes::find_box(bytes, start, end, kind, text_types)
}

/// What is quoted of `boxes::table_text_place` is promised, and nothing is asked.
pub fn table_text_place(file: &[u8]) -> Result<Place, Refusal>
    ensures quoted { calls.TableTextPlace file.now result }
    ensures placed { (κs : Regions calls.table-text-place) → Says calls.table-text-place κs
        (file.entry, tt)
        (record { result = result; last = (tt, tt) }) }
{
    boxes::table_text_place(file)
}

/// What is quoted of `boxes::table_text` is promised, and nothing is asked.
pub fn table_text(file: &[u8]) -> &[u8]
    ensures quoted { calls.TableText file.entry result }
    ensures placed { (κs : Regions calls.table-text) → Says calls.table-text κs
        (file.entry, tt)
        (record { result = result; last = (tt, tt) }) }
{
    boxes::table_text(file)
}

/// What is quoted of `frame_times::video_frame_times_of_moov` is promised, and nothing is asked.
pub fn video_frame_times_of_moov(
    moov: &[u8],
    standard: bool,
    starts: &mut [i64],
    first_work: &mut [i64],
    second_work: &mut [i64],
) -> Result<FrameTimes, Refusal>
    ensures quoted { calls.VideoFrameTimesOfMoov moov.now standard starts.old first_work.old
        second_work.old result starts.new first_work.new second_work.new }
    ensures placed { (κs : Regions calls.video-frame-times-of-moov) → Says calls.video-frame-times-of-moov κs
        (moov.entry, (standard, (starts.entry, (first_work.entry, (second_work.entry, tt)))))
        (record { result = result; last = (tt, (tt, (starts.new, (first_work.new, (second_work.new, tt))))) }) }
{
    frame_times::video_frame_times_of_moov(moov, standard, starts, first_work, second_work)
}

/// What is quoted of `mcraw::mcraw_times` is promised, and nothing is asked.
pub fn mcraw_times(
    timestamps: &[i64],
    starts: &mut [i64],
    work: &mut [i64],
) -> Result<FrameTimes, Refusal>
    ensures quoted { calls.McrawTimes timestamps.now starts.old work.old result starts.new work.new }
    ensures placed { (κs : Regions calls.mcraw-times) → Says calls.mcraw-times κs
        (timestamps.entry, (starts.entry, (work.entry, tt)))
        (record { result = result; last = (tt, (starts.new, (work.new, tt))) }) }
{
    mcraw::mcraw_times(timestamps, starts, work)
}

/// What is quoted of `maps::cut` is promised, and nothing is asked.
pub fn cut(
    words: &[u64],
    shifts: &[i64],
    start: u64,
    end: u64,
    out_words: &mut [u64],
    out_shifts: &mut [i64],
) -> Result<usize, Refusal>
    ensures quoted { calls.Cut words.now shifts.now start end out_words.old out_shifts.old result
        out_words.new out_shifts.new }
    ensures placed { (κs : Regions calls.cut) → Says calls.cut κs
        (words.entry, (shifts.entry, (start, (end, (out_words.entry, (out_shifts.entry, tt))))))
        (record { result = result; last = (tt, (tt, (tt, (tt, (out_words.new, (out_shifts.new, tt)))))) }) }
{
    maps::cut(words, shifts, start, end, out_words, out_shifts)
}

/// What is quoted of `maps::merge` is promised, and nothing is asked.
pub fn merge(
    words: &[u64],
    shifts: &[i64],
    out_words: &mut [u64],
    out_shifts: &mut [i64],
) -> Result<usize, Refusal>
    ensures quoted { calls.Merge words.now shifts.now out_words.old out_shifts.old result
        out_words.new out_shifts.new }
    ensures placed { (κs : Regions calls.merge) → Says calls.merge κs
        (words.entry, (shifts.entry, (out_words.entry, (out_shifts.entry, tt))))
        (record { result = result; last = (tt, (tt, (out_words.new, (out_shifts.new, tt)))) }) }
{
    maps::merge(words, shifts, out_words, out_shifts)
}

/// What is quoted of `maps::join` is promised, and nothing is asked.
pub fn join(
    words: &[u64],
    shifts: &[i64],
    second_words: &[u64],
    second_shifts: &[i64],
    out_words: &mut [u64],
    out_shifts: &mut [i64],
) -> Result<usize, Refusal>
    ensures quoted { calls.Join words.now shifts.now second_words.now second_shifts.now
        out_words.old out_shifts.old result out_words.new out_shifts.new }
    ensures placed { (κs : Regions calls.join) → Says calls.join κs
        (words.entry, (shifts.entry, (second_words.entry, (second_shifts.entry, (out_words.entry, (out_shifts.entry, tt))))))
        (record { result = result; last = (tt, (tt, (tt, (tt, (out_words.new, (out_shifts.new, tt)))))) }) }
{
    maps::join(
        words,
        shifts,
        second_words,
        second_shifts,
        out_words,
        out_shifts,
    )
}

/// What is quoted of `maps::origin` is promised, and nothing is asked.
pub fn origin(words: &[u64], shifts: &[i64], frame: u64) -> Result<Origin, Refusal>
    ensures quoted { calls.Origin words.now shifts.now frame result }
    ensures placed { (κs : Regions calls.origin) → Says calls.origin κs
        (words.entry, (shifts.entry, (frame, tt)))
        (record { result = result; last = (tt, (tt, (tt, tt))) }) }
{
    maps::origin(words, shifts, frame)
}

/// What is quoted of `maps::origins` is promised, and nothing is asked.
pub fn origins(
    words: &[u64],
    shifts: &[i64],
    frames: &[u64],
    out: &mut [Origin],
) -> Result<usize, Refusal>
    ensures quoted { calls.Origins words.now shifts.now frames.now out.old result out.new }
    ensures placed { (κs : Regions calls.origins) → Says calls.origins κs
        (words.entry, (shifts.entry, (frames.entry, (out.entry, tt))))
        (record { result = result; last = (tt, (tt, (tt, (out.new, tt)))) }) }
{
    maps::origins(words, shifts, frames, out)
}

/// What is quoted of `cuts::cuts` is promised, and nothing is asked.
pub fn cuts(
    words: &[u64],
    shifts: &[i64],
    ranges: &[u64],
    out_words: &mut [u64],
    out_shifts: &mut [i64],
    counts: &mut [u64],
) -> Result<usize, Refusal>
    ensures quoted { calls.Cuts words.now shifts.now ranges.now out_words.old out_shifts.old
        counts.old result out_words.new out_shifts.new counts.new }
    ensures placed { (κs : Regions calls.cuts) → Says calls.cuts κs
        (words.entry, (shifts.entry, (ranges.entry, (out_words.entry, (out_shifts.entry, (counts.entry, tt))))))
        (record { result = result; last = (tt, (tt, (tt, (out_words.new, (out_shifts.new, (counts.new, tt)))))) }) }
{
    cuts::cuts(words, shifts, ranges, out_words, out_shifts, counts)
}

/// What is quoted of `records::segment_of_frame_records` is promised, and nothing is asked.
pub fn segment_of_frame_records(
    sources: &[u64],
    text: &[u8],
    records: &[TrimSegment],
    log: bool,
    frame: u64,
) -> Result<usize, Refusal>
    ensures quoted { calls.SegmentOfFrameRecords sources.now text.now records.now log frame result }
    ensures placed { (κs : Regions calls.segment-of-frame-records) → Says calls.segment-of-frame-records κs
        (sources.entry, (text.entry, (records.entry, (log, (frame, tt)))))
        (record { result = result; last = (tt, (tt, (tt, (tt, (tt, tt))))) }) }
{
    records::segment_of_frame_records(sources, text, records, log, frame)
}

/// What is quoted of `table_meaning::read_table` is promised, and nothing is asked.
pub fn read_table(
    text: &[u8],
    sources: &mut [u64],
    words: &mut [u64],
    stamps: &mut [i64],
    dates: &mut [u8],
    work: &mut [u64],
) -> Result<Read, Refusal>
    ensures quoted { calls.ReadTable text.now sources.old words.old stamps.old dates.old work.old
        result sources.new words.new stamps.new dates.new work.new }
    ensures placed { (κs : Regions calls.read-table) → Says calls.read-table κs
        (text.entry, (sources.entry, (words.entry, (stamps.entry, (dates.entry, (work.entry, tt))))))
        (record { result = result; last = (tt, (sources.new, (words.new, (stamps.new, (dates.new, (work.new, tt)))))) }) }
{
    table_meaning::read_table(text, sources, words, stamps, dates, work)
}

/// What is quoted of `table_meaning::source_names` is promised, and nothing is asked.
pub fn source_names(text: &[u8], out: &mut [u64], work: &mut [u64]) -> Result<usize, Refusal>
    ensures quoted { calls.SourceNames text.now out.old work.old result out.new work.new }
    ensures placed { (κs : Regions calls.source-names) → Says calls.source-names κs
        (text.entry, (out.entry, (work.entry, tt)))
        (record { result = result; last = (tt, (out.new, (work.new, tt))) }) }
{
    table_meaning::source_names(text, out, work)
}

/// What is quoted of `json_strings::reading::string_into` is promised, and nothing is asked.
pub fn string_into(text: &[u8], at: usize, out: &mut [u8]) -> Result<usize, Refusal>
    ensures quoted { calls.StringInto text.now at out.old result out.new }
    ensures placed { (κs : Regions calls.string-into) → Says calls.string-into κs
        (text.entry, (at, (out.entry, tt)))
        (record { result = result; last = (tt, (tt, (out.new, tt))) }) }
{
    json_strings::reading::string_into(text, at, out)
}
