//! Made by tools/calls: of each call for C a function with its parameters that only calls it. It
//! asks nothing, so it proves only where the call asks nothing; and it promises what
//! specs/Face.antt quotes, so it proves only where the call promises that: `quoted` by name, and
//! `placed` as the record has it, by the places of the arguments and of what is left. That no other
//! end meets the record is claimed by `OneAnswer` (specs/Promise.antt).
ghost use Rattle.audit.specs.Promise.{Regions, Says};
ghost use Rattle.audit.specs.Face as calls;

use records::TrimSegment;
use rows::Origin;
use told::texts::TableRead;

/// What is quoted of `segment_table::clock::st_is_utc_second` is promised, and nothing is asked.
pub fn st_is_utc_second(bytes: &[u8]) -> bool
    ensures quoted { calls.StIsUtcSecond bytes.now result }
    ensures placed { (κs : Regions calls.st-is-utc-second) → Says calls.st-is-utc-second κs
        (bytes.entry, tt)
        (record { result = result; last = (tt, tt) }) }
{
    segment_table::clock::st_is_utc_second(bytes)
}

/// What is quoted of `segment_table::clock::st_ticks_to_us` is promised, and nothing is asked.
pub fn st_ticks_to_us(ticks: i64, scale: u64, us: &mut i64, index: &mut u64) -> u64
    ensures quoted { calls.StTicksToUs ticks scale us.old index.old result us.new index.new }
    ensures placed { (κs : Regions calls.st-ticks-to-us) → Says calls.st-ticks-to-us κs
        (ticks, (scale, (us.entry, (index.entry, tt))))
        (record { result = result; last = (tt, (tt, (us.new, (index.new, tt)))) }) }
{
    segment_table::clock::st_ticks_to_us(ticks, scale, us, index)
}

/// What is quoted of `segment_table::cutting::st_cut` is promised, and nothing is asked.
pub fn st_cut(
    words: &[u64],
    shifts: &[i64],
    start: u64,
    end: u64,
    out_words: &mut [u64],
    out_shifts: &mut [i64],
    rows: &mut u64,
    index: &mut u64,
) -> u64
    ensures quoted { calls.StCut words.now shifts.now start end out_words.old out_shifts.old
        rows.old index.old result out_words.new out_shifts.new rows.new index.new }
    ensures placed { (κs : Regions calls.st-cut) → Says calls.st-cut κs
        (words.entry, (shifts.entry, (start, (end, (out_words.entry, (out_shifts.entry, (rows.entry, (index.entry, tt))))))))
        (record { result = result; last = (tt, (tt, (tt, (tt, (out_words.new, (out_shifts.new, (rows.new, (index.new, tt)))))))) }) }
{
    segment_table::cutting::st_cut(
        words, shifts, start, end, out_words, out_shifts, rows, index,
    )
}

/// What is quoted of `segment_table::cutting::st_cuts` is promised, and nothing is asked.
pub fn st_cuts(
    words: &[u64],
    shifts: &[i64],
    ranges: &[u64],
    out_words: &mut [u64],
    out_shifts: &mut [i64],
    counts: &mut [u64],
    rows: &mut u64,
    index: &mut u64,
) -> u64
    ensures quoted { calls.StCuts words.now shifts.now ranges.now out_words.old out_shifts.old
        counts.old rows.old index.old result out_words.new out_shifts.new counts.new rows.new
        index.new }
    ensures placed { (κs : Regions calls.st-cuts) → Says calls.st-cuts κs
        (words.entry, (shifts.entry, (ranges.entry, (out_words.entry, (out_shifts.entry, (counts.entry, (rows.entry, (index.entry, tt))))))))
        (record { result = result; last = (tt, (tt, (tt, (out_words.new, (out_shifts.new, (counts.new, (rows.new, (index.new, tt)))))))) }) }
{
    segment_table::cutting::st_cuts(
        words, shifts, ranges, out_words, out_shifts, counts, rows, index,
    )
}

/// What is quoted of `segment_table::cutting::st_join` is promised, and nothing is asked.
pub fn st_join(
    words: &[u64],
    shifts: &[i64],
    second_words: &[u64],
    second_shifts: &[i64],
    out_words: &mut [u64],
    out_shifts: &mut [i64],
    rows: &mut u64,
    index: &mut u64,
) -> u64
    ensures quoted { calls.StJoin words.now shifts.now second_words.now second_shifts.now
        out_words.old out_shifts.old rows.old index.old result out_words.new out_shifts.new rows.new
        index.new }
    ensures placed { (κs : Regions calls.st-join) → Says calls.st-join κs
        (words.entry, (shifts.entry, (second_words.entry, (second_shifts.entry, (out_words.entry, (out_shifts.entry, (rows.entry, (index.entry, tt))))))))
        (record { result = result; last = (tt, (tt, (tt, (tt, (out_words.new, (out_shifts.new, (rows.new, (index.new, tt)))))))) }) }
{
    segment_table::cutting::st_join(
        words,
        shifts,
        second_words,
        second_shifts,
        out_words,
        out_shifts,
        rows,
        index,
    )
}

/// What is quoted of `segment_table::cutting::st_merge` is promised, and nothing is asked.
pub fn st_merge(
    words: &[u64],
    shifts: &[i64],
    out_words: &mut [u64],
    out_shifts: &mut [i64],
    rows: &mut u64,
    index: &mut u64,
) -> u64
    ensures quoted { calls.StMerge words.now shifts.now out_words.old out_shifts.old rows.old
        index.old result out_words.new out_shifts.new rows.new index.new }
    ensures placed { (κs : Regions calls.st-merge) → Says calls.st-merge κs
        (words.entry, (shifts.entry, (out_words.entry, (out_shifts.entry, (rows.entry, (index.entry, tt))))))
        (record { result = result; last = (tt, (tt, (out_words.new, (out_shifts.new, (rows.new, (index.new, tt)))))) }) }
{
    segment_table::cutting::st_merge(words, shifts, out_words, out_shifts, rows, index)
}

/// What is quoted of `segment_table::cutting::st_origin` is promised, and nothing is asked.
pub fn st_origin(
    words: &[u64],
    shifts: &[i64],
    frame: u64,
    source: &mut u64,
    source_frame: &mut u64,
    flag: &mut u64,
    shift: &mut i64,
    index: &mut u64,
) -> u64
    ensures quoted { calls.StOrigin words.now shifts.now frame source.old source_frame.old flag.old
        shift.old index.old result source.new source_frame.new flag.new shift.new index.new }
    ensures placed { (κs : Regions calls.st-origin) → Says calls.st-origin κs
        (words.entry, (shifts.entry, (frame, (source.entry, (source_frame.entry, (flag.entry, (shift.entry, (index.entry, tt))))))))
        (record { result = result; last = (tt, (tt, (tt, (source.new, (source_frame.new, (flag.new, (shift.new, (index.new, tt)))))))) }) }
{
    segment_table::cutting::st_origin(
        words,
        shifts,
        frame,
        source,
        source_frame,
        flag,
        shift,
        index,
    )
}

/// What is quoted of `segment_table::cutting::st_origins` is promised, and nothing is asked.
pub fn st_origins(
    words: &[u64],
    shifts: &[i64],
    frames: &[u64],
    out_origins: &mut [Origin],
    written: &mut u64,
    index: &mut u64,
) -> u64
    ensures quoted { calls.StOrigins words.now shifts.now frames.now out_origins.old written.old
        index.old result out_origins.new written.new index.new }
    ensures placed { (κs : Regions calls.st-origins) → Says calls.st-origins κs
        (words.entry, (shifts.entry, (frames.entry, (out_origins.entry, (written.entry, (index.entry, tt))))))
        (record { result = result; last = (tt, (tt, (tt, (out_origins.new, (written.new, (index.new, tt)))))) }) }
{
    segment_table::cutting::st_origins(words, shifts, frames, out_origins, written, index)
}

/// What is quoted of `segment_table::judging::st_validate_no_video` is promised, and nothing is asked.
pub fn st_validate_no_video(
    sources: &[u64],
    segments: &[u64],
    stamps: &[i64],
    log: bool,
    text: &[u8],
    index: &mut u64,
) -> u64
    ensures quoted { calls.StValidateNoVideo sources.now segments.now stamps.now log text.now
        index.old result index.new }
    ensures placed { (κs : Regions calls.st-validate-no-video) → Says calls.st-validate-no-video κs
        (sources.entry, (segments.entry, (stamps.entry, (log, (text.entry, (index.entry, tt))))))
        (record { result = result; last = (tt, (tt, (tt, (tt, (tt, (index.new, tt)))))) }) }
{
    segment_table::judging::st_validate_no_video(sources, segments, stamps, log, text, index)
}

/// What is quoted of `segment_table::judging::st_validate_constant` is promised, and nothing is asked.
pub fn st_validate_constant(
    sources: &[u64],
    segments: &[u64],
    stamps: &[i64],
    log: bool,
    text: &[u8],
    video_frames: u64,
    numerator: u64,
    denominator: u64,
    frames: &mut u64,
    index: &mut u64,
) -> u64
    ensures quoted { calls.StValidateConstant sources.now segments.now stamps.now log text.now
        video_frames numerator denominator frames.old index.old result frames.new index.new }
    ensures placed { (κs : Regions calls.st-validate-constant) → Says calls.st-validate-constant κs
        (sources.entry, (segments.entry, (stamps.entry, (log, (text.entry, (video_frames, (numerator, (denominator, (frames.entry, (index.entry, tt))))))))))
        (record { result = result; last = (tt, (tt, (tt, (tt, (tt, (tt, (tt, (tt, (frames.new, (index.new, tt)))))))))) }) }
{
    segment_table::judging::st_validate_constant(
        sources,
        segments,
        stamps,
        log,
        text,
        video_frames,
        numerator,
        denominator,
        frames,
        index,
    )
}

/// What is quoted of `segment_table::judging::st_validate_times` is promised, and nothing is asked.
pub fn st_validate_times(
    sources: &[u64],
    segments: &[u64],
    stamps: &[i64],
    log: bool,
    text: &[u8],
    scale: u64,
    starts: &[i64],
    end: i64,
    nominal: i64,
    frames: &mut u64,
    index: &mut u64,
) -> u64
    ensures quoted { calls.StValidateTimes sources.now segments.now stamps.now log text.now scale
        starts.now end nominal frames.old index.old result frames.new index.new }
    ensures placed { (κs : Regions calls.st-validate-times) → Says calls.st-validate-times κs
        (sources.entry, (segments.entry, (stamps.entry, (log, (text.entry, (scale, (starts.entry, (end, (nominal, (frames.entry, (index.entry, tt)))))))))))
        (record { result = result; last = (tt, (tt, (tt, (tt, (tt, (tt, (tt, (tt, (tt, (frames.new, (index.new, tt))))))))))) }) }
{
    segment_table::judging::st_validate_times(
        sources, segments, stamps, log, text, scale, starts, end, nominal, frames, index,
    )
}

/// What is quoted of `segment_table::judging::st_check_mcraw` is promised, and nothing is asked.
pub fn st_check_mcraw(
    sources: &[u64],
    segments: &[u64],
    stamps: &[i64],
    log: bool,
    text: &[u8],
    timestamps: &[i64],
    first_work: &mut [i64],
    second_work: &mut [i64],
    frames: &mut u64,
    index: &mut u64,
) -> u64
    ensures quoted { calls.StCheckMcraw sources.now segments.now stamps.now log text.now
        timestamps.now first_work.old second_work.old frames.old index.old result first_work.new
        second_work.new frames.new index.new }
    ensures placed { (κs : Regions calls.st-check-mcraw) → Says calls.st-check-mcraw κs
        (sources.entry, (segments.entry, (stamps.entry, (log, (text.entry, (timestamps.entry, (first_work.entry, (second_work.entry, (frames.entry, (index.entry, tt))))))))))
        (record { result = result; last = (tt, (tt, (tt, (tt, (tt, (tt, (first_work.new, (second_work.new, (frames.new, (index.new, tt)))))))))) }) }
{
    segment_table::judging::st_check_mcraw(
        sources,
        segments,
        stamps,
        log,
        text,
        timestamps,
        first_work,
        second_work,
        frames,
        index,
    )
}

/// What is quoted of `segment_table::listed::st_segment_of_frame_records` is promised, and nothing is asked.
pub fn st_segment_of_frame_records(
    sources: &[u64],
    text: &[u8],
    records: &[TrimSegment],
    log: bool,
    frame: u64,
    segment: &mut u64,
    index: &mut u64,
) -> u64
    ensures quoted { calls.StSegmentOfFrameRecords sources.now text.now records.now log frame
        segment.old index.old result segment.new index.new }
    ensures placed { (κs : Regions calls.st-segment-of-frame-records) → Says calls.st-segment-of-frame-records κs
        (sources.entry, (text.entry, (records.entry, (log, (frame, (segment.entry, (index.entry, tt)))))))
        (record { result = result; last = (tt, (tt, (tt, (tt, (tt, (segment.new, (index.new, tt))))))) }) }
{
    segment_table::listed::st_segment_of_frame_records(
        sources, text, records, log, frame, segment, index,
    )
}

/// What is quoted of `segment_table::recordings::st_mcraw_times` is promised, and nothing is asked.
pub fn st_mcraw_times(
    timestamps: &[i64],
    starts: &mut [i64],
    work: &mut [i64],
    frames: &mut u64,
    scale: &mut u64,
    nominal: &mut i64,
    end: &mut i64,
    index: &mut u64,
) -> u64
    ensures quoted { calls.StMcrawTimes timestamps.now starts.old work.old frames.old scale.old
        nominal.old end.old index.old result starts.new work.new frames.new scale.new nominal.new
        end.new index.new }
    ensures placed { (κs : Regions calls.st-mcraw-times) → Says calls.st-mcraw-times κs
        (timestamps.entry, (starts.entry, (work.entry, (frames.entry, (scale.entry, (nominal.entry, (end.entry, (index.entry, tt))))))))
        (record { result = result; last = (tt, (starts.new, (work.new, (frames.new, (scale.new, (nominal.new, (end.new, (index.new, tt)))))))) }) }
{
    segment_table::recordings::st_mcraw_times(
        timestamps, starts, work, frames, scale, nominal, end, index,
    )
}

/// What is quoted of `segment_table::recordings::st_video_frame_times_of_moov` is promised, and nothing is asked.
pub fn st_video_frame_times_of_moov(
    moov: &[u8],
    standard: bool,
    starts: &mut [i64],
    first_work: &mut [i64],
    second_work: &mut [i64],
    frames: &mut u64,
    scale: &mut u64,
    nominal: &mut i64,
    end: &mut i64,
    index: &mut u64,
) -> u64
    ensures quoted { calls.StVideoFrameTimesOfMoov moov.now standard starts.old first_work.old
        second_work.old frames.old scale.old nominal.old end.old index.old result starts.new
        first_work.new second_work.new frames.new scale.new nominal.new end.new index.new }
    ensures placed { (κs : Regions calls.st-video-frame-times-of-moov) → Says calls.st-video-frame-times-of-moov κs
        (moov.entry, (standard, (starts.entry, (first_work.entry, (second_work.entry, (frames.entry, (scale.entry, (nominal.entry, (end.entry, (index.entry, tt))))))))))
        (record { result = result; last = (tt, (tt, (starts.new, (first_work.new, (second_work.new, (frames.new, (scale.new, (nominal.new, (end.new, (index.new, tt)))))))))) }) }
{
    segment_table::recordings::st_video_frame_times_of_moov(
        moov,
        standard,
        starts,
        first_work,
        second_work,
        frames,
        scale,
        nominal,
        end,
        index,
    )
}

/// What is quoted of `segment_table::tables::st_check` is promised, and nothing is asked.
pub fn st_check(
    sources: &[u64],
    segments: &[u64],
    stamps: &[i64],
    log: bool,
    text: &[u8],
    frames: &mut u64,
    index: &mut u64,
) -> u64
    ensures quoted { calls.StCheck sources.now segments.now stamps.now log text.now frames.old
        index.old result frames.new index.new }
    ensures placed { (κs : Regions calls.st-check) → Says calls.st-check κs
        (sources.entry, (segments.entry, (stamps.entry, (log, (text.entry, (frames.entry, (index.entry, tt)))))))
        (record { result = result; last = (tt, (tt, (tt, (tt, (tt, (frames.new, (index.new, tt))))))) }) }
{
    segment_table::tables::st_check(sources, segments, stamps, log, text, frames, index)
}

/// What is quoted of `segment_table::tables::st_segment_of_frame` is promised, and nothing is asked.
pub fn st_segment_of_frame(
    sources: &[u64],
    segments: &[u64],
    stamps: &[i64],
    log: bool,
    text: &[u8],
    frame: u64,
    segment: &mut u64,
    index: &mut u64,
) -> u64
    ensures quoted { calls.StSegmentOfFrame sources.now segments.now stamps.now log text.now frame
        segment.old index.old result segment.new index.new }
    ensures placed { (κs : Regions calls.st-segment-of-frame) → Says calls.st-segment-of-frame κs
        (sources.entry, (segments.entry, (stamps.entry, (log, (text.entry, (frame, (segment.entry, (index.entry, tt))))))))
        (record { result = result; last = (tt, (tt, (tt, (tt, (tt, (tt, (segment.new, (index.new, tt)))))))) }) }
{
    segment_table::tables::st_segment_of_frame(
        sources, segments, stamps, log, text, frame, segment, index,
    )
}

/// What is quoted of `segment_table::tables::st_segments_of_frames` is promised, and nothing is asked.
pub fn st_segments_of_frames(
    sources: &[u64],
    segments: &[u64],
    stamps: &[i64],
    log: bool,
    text: &[u8],
    frames: &[u64],
    out_segments: &mut [u64],
    written: &mut u64,
    index: &mut u64,
) -> u64
    ensures quoted { calls.StSegmentsOfFrames sources.now segments.now stamps.now log text.now
        frames.now out_segments.old written.old index.old result out_segments.new written.new
        index.new }
    ensures placed { (κs : Regions calls.st-segments-of-frames) → Says calls.st-segments-of-frames κs
        (sources.entry, (segments.entry, (stamps.entry, (log, (text.entry, (frames.entry, (out_segments.entry, (written.entry, (index.entry, tt)))))))))
        (record { result = result; last = (tt, (tt, (tt, (tt, (tt, (tt, (out_segments.new, (written.new, (index.new, tt))))))))) }) }
{
    segment_table::tables::st_segments_of_frames(
        sources,
        segments,
        stamps,
        log,
        text,
        frames,
        out_segments,
        written,
        index,
    )
}

/// What is quoted of `segment_table::tables::st_segment_of_time_us` is promised, and nothing is asked.
pub fn st_segment_of_time_us(
    sources: &[u64],
    segments: &[u64],
    stamps: &[i64],
    log: bool,
    text: &[u8],
    time: i64,
    segment: &mut u64,
    index: &mut u64,
) -> u64
    ensures quoted { calls.StSegmentOfTimeUs sources.now segments.now stamps.now log text.now time
        segment.old index.old result segment.new index.new }
    ensures placed { (κs : Regions calls.st-segment-of-time-us) → Says calls.st-segment-of-time-us κs
        (sources.entry, (segments.entry, (stamps.entry, (log, (text.entry, (time, (segment.entry, (index.entry, tt))))))))
        (record { result = result; last = (tt, (tt, (tt, (tt, (tt, (tt, (segment.new, (index.new, tt)))))))) }) }
{
    segment_table::tables::st_segment_of_time_us(
        sources, segments, stamps, log, text, time, segment, index,
    )
}

/// What is quoted of `segment_table::tables::st_continues` is promised, and nothing is asked.
pub fn st_continues(
    sources: &[u64],
    segments: &[u64],
    stamps: &[i64],
    log: bool,
    text: &[u8],
    segment: u64,
    answer: &mut u64,
    index: &mut u64,
) -> u64
    ensures quoted { calls.StContinues sources.now segments.now stamps.now log text.now segment
        answer.old index.old result answer.new index.new }
    ensures placed { (κs : Regions calls.st-continues) → Says calls.st-continues κs
        (sources.entry, (segments.entry, (stamps.entry, (log, (text.entry, (segment, (answer.entry, (index.entry, tt))))))))
        (record { result = result; last = (tt, (tt, (tt, (tt, (tt, (tt, (answer.new, (index.new, tt)))))))) }) }
{
    segment_table::tables::st_continues(
        sources, segments, stamps, log, text, segment, answer, index,
    )
}

/// What is quoted of `segment_table::tables::st_rows_of_table` is promised, and nothing is asked.
pub fn st_rows_of_table(
    sources: &[u64],
    segments: &[u64],
    stamps: &[i64],
    log: bool,
    text: &[u8],
    out_words: &mut [u64],
    out_shifts: &mut [i64],
    rows: &mut u64,
    index: &mut u64,
) -> u64
    ensures quoted { calls.StRowsOfTable sources.now segments.now stamps.now log text.now
        out_words.old out_shifts.old rows.old index.old result out_words.new out_shifts.new rows.new
        index.new }
    ensures placed { (κs : Regions calls.st-rows-of-table) → Says calls.st-rows-of-table κs
        (sources.entry, (segments.entry, (stamps.entry, (log, (text.entry, (out_words.entry, (out_shifts.entry, (rows.entry, (index.entry, tt)))))))))
        (record { result = result; last = (tt, (tt, (tt, (tt, (tt, (out_words.new, (out_shifts.new, (rows.new, (index.new, tt))))))))) }) }
{
    segment_table::tables::st_rows_of_table(
        sources, segments, stamps, log, text, out_words, out_shifts, rows, index,
    )
}

/// What is quoted of `segment_table::texts::st_read_table` is promised, and nothing is asked.
pub fn st_read_table(
    text: &[u8],
    sources: &mut [u64],
    segments: &mut [u64],
    stamps: &mut [i64],
    dates: &mut [u8],
    work: &mut [u64],
    read: &mut TableRead,
    index: &mut u64,
) -> u64
    ensures quoted { calls.StReadTable text.now sources.old segments.old stamps.old dates.old
        work.old read.old index.old result sources.new segments.new stamps.new dates.new work.new
        read.new index.new }
    ensures placed { (κs : Regions calls.st-read-table) → Says calls.st-read-table κs
        (text.entry, (sources.entry, (segments.entry, (stamps.entry, (dates.entry, (work.entry, (read.entry, (index.entry, tt))))))))
        (record { result = result; last = (tt, (sources.new, (segments.new, (stamps.new, (dates.new, (work.new, (read.new, (index.new, tt)))))))) }) }
{
    segment_table::texts::st_read_table(text, sources, segments, stamps, dates, work, read, index)
}

/// What is quoted of `segment_table::texts::st_source_names` is promised, and nothing is asked.
pub fn st_source_names(
    text: &[u8],
    names: &mut [u64],
    work: &mut [u64],
    count: &mut u64,
    index: &mut u64,
) -> u64
    ensures quoted { calls.StSourceNames text.now names.old work.old count.old index.old result
        names.new work.new count.new index.new }
    ensures placed { (κs : Regions calls.st-source-names) → Says calls.st-source-names κs
        (text.entry, (names.entry, (work.entry, (count.entry, (index.entry, tt)))))
        (record { result = result; last = (tt, (names.new, (work.new, (count.new, (index.new, tt))))) }) }
{
    segment_table::texts::st_source_names(text, names, work, count, index)
}

/// What is quoted of `segment_table::texts::st_json_string` is promised, and nothing is asked.
pub fn st_json_string(
    text: &[u8],
    at: u64,
    out: &mut [u8],
    length: &mut u64,
    index: &mut u64,
) -> u64
    ensures quoted { calls.StJsonString text.now at out.old length.old index.old result out.new
        length.new index.new }
    ensures placed { (κs : Regions calls.st-json-string) → Says calls.st-json-string κs
        (text.entry, (at, (out.entry, (length.entry, (index.entry, tt)))))
        (record { result = result; last = (tt, (tt, (out.new, (length.new, (index.new, tt))))) }) }
{
    segment_table::texts::st_json_string(text, at, out, length, index)
}

/// What is quoted of `segment_table::walk::st_box_size` is promised, and nothing is asked.
pub fn st_box_size(
    data: &[u8],
    remaining: u64,
    size: &mut u64,
    header: &mut u64,
    index: &mut u64,
) -> u64
    ensures quoted { calls.StBoxSize «data».now remaining size.old header.old index.old result
        size.new header.new index.new }
    ensures placed { (κs : Regions calls.st-box-size) → Says calls.st-box-size κs
        («data».entry, (remaining, (size.entry, (header.entry, (index.entry, tt)))))
        (record { result = result; last = (tt, (tt, (size.new, (header.new, (index.new, tt))))) }) }
{
    segment_table::walk::st_box_size(data, remaining, size, header, index)
}

/// What is quoted of `segment_table::walk::st_children` is promised, and nothing is asked.
pub fn st_children(
    payload: &[u8],
    at: u64,
    kind: &mut u32,
    start: &mut u64,
    length: &mut u64,
    next: &mut u64,
    index: &mut u64,
) -> u64
    ensures quoted { calls.StChildren payload.now at kind.old start.old length.old next.old
        index.old result kind.new start.new length.new next.new index.new }
    ensures placed { (κs : Regions calls.st-children) → Says calls.st-children κs
        (payload.entry, (at, (kind.entry, (start.entry, (length.entry, (next.entry, (index.entry, tt)))))))
        (record { result = result; last = (tt, (tt, (kind.new, (start.new, (length.new, (next.new, (index.new, tt))))))) }) }
{
    segment_table::walk::st_children(payload, at, kind, start, length, next, index)
}

/// What is quoted of `segment_table::walk::st_child` is promised, and nothing is asked.
pub fn st_child(
    payload: &[u8],
    kind: u32,
    start: &mut u64,
    length: &mut u64,
    index: &mut u64,
) -> u64
    ensures quoted { calls.StChild payload.now kind start.old length.old index.old result start.new
        length.new index.new }
    ensures placed { (κs : Regions calls.st-child) → Says calls.st-child κs
        (payload.entry, (kind, (start.entry, (length.entry, (index.entry, tt)))))
        (record { result = result; last = (tt, (tt, (start.new, (length.new, (index.new, tt))))) }) }
{
    segment_table::walk::st_child(payload, kind, start, length, index)
}

/// What is quoted of `segment_table::walk::st_find_box` is promised, and nothing is asked.
pub fn st_find_box(
    bytes: &[u8],
    from: u64,
    to: u64,
    kind: u32,
    text_types: bool,
    start: &mut u64,
    length: &mut u64,
    index: &mut u64,
) -> u64
    ensures quoted { calls.StFindBox bytes.now from to kind text_types start.old length.old
        index.old result start.new length.new index.new }
    ensures placed { (κs : Regions calls.st-find-box) → Says calls.st-find-box κs
        (bytes.entry, (from, (to, (kind, (text_types, (start.entry, (length.entry, (index.entry, tt))))))))
        (record { result = result; last = (tt, (tt, (tt, (tt, (tt, (start.new, (length.new, (index.new, tt)))))))) }) }
{
    segment_table::walk::st_find_box(bytes, from, to, kind, text_types, start, length, index)
}

/// What is quoted of `segment_table::walk::st_table_text` is promised, and nothing is asked.
pub fn st_table_text(file: &[u8], start: &mut u64, length: &mut u64, index: &mut u64) -> u64
    ensures quoted { calls.StTableText file.now start.old length.old index.old result start.new
        length.new index.new }
    ensures placed { (κs : Regions calls.st-table-text) → Says calls.st-table-text κs
        (file.entry, (start.entry, (length.entry, (index.entry, tt))))
        (record { result = result; last = (tt, (start.new, (length.new, (index.new, tt)))) }) }
{
    segment_table::walk::st_table_text(file, start, length, index)
}
