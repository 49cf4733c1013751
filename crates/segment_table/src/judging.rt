//! Judging: a table against the video of its file, and against a MotionCam recording.
ghost use Rattle.std.specs.Prelude.{◌≡◌};
ghost use Rattle.table.specs.Layout.{table_of};
ghost use Rattle.judge.specs.Video.{nothing, constant, timed};
ghost use Rattle.judge.specs.Judge.{validate_of};
ghost use Rattle.told.specs.Told.{told, itself, unsaid};
ghost use Rattle.segment_table.specs.Written.{JudgedTold};

use judge::Video;

/// Judges a table where its file has no video: it is always refused.
/// Lent: a table. Writes index. Refuses: 1 to 17, 21.
#[tactic(auto, unfolding(judge::specs::Video::shown_by))]
#[unsafe(no_mangle)]
pub extern "C" fn st_validate_no_video(
    sources: &[u64],
    segments: &[u64],
    stamps: &[i64],
    log: bool,
    text: &[u8],
    index: &mut u64,
) -> u64
    ensures { (result, tt, index.new)
        ≡ told unsaid
        (validate_of (table_of sources.now segments.now stamps.now log text.now) nothing) tt }
{
    let answer = judge::validate(
        sources,
        segments,
        stamps,
        log,
        text,
        Video::Nothing,
        &stamps[..0],
    );
    told::tell_refusal(answer, index)
}

/// Judges a table by a video of video_frames frames at numerator / denominator a second: its frame
/// total. Lent: a table. Writes frames, index. Refuses: 1 to 17, 20, 22, 23 with 24, 25.
#[tactic(auto, unfolding(judge::specs::Video::shown_by))]
#[unsafe(no_mangle)]
pub extern "C" fn st_validate_constant(
    sources: &[u64],
    segments: &[u64],
    stamps: &[i64],
    log: bool,
    text: &[u8],
    video_frames: u64,
    numerator: u64,
    denominator: u64,
    frames: &mut u64,
    index: &mut u64,
) -> u64
    ensures { (result, frames.new, index.new)
        ≡ told itself
        (validate_of (table_of sources.now segments.now stamps.now log text.now)
        (constant video_frames numerator denominator))
        frames.old }
{
    let video = Video::Constant {
        frames: video_frames,
        numerator,
        denominator,
    };
    let answer = judge::validate(sources, segments, stamps, log, text, video, &stamps[..0]);
    told::tell(answer, frames, index)
}

/// Judges a table by a video's frame times, in ticks of scale a second: its frame total. The last
/// frame ends at end. Lent: a table, the starts. Writes frames, index. Refuses: 1 to 17, 20, 22, 23
/// with 24, 25.
#[tactic(auto, unfolding(judge::specs::Video::shown_by))]
#[unsafe(no_mangle)]
pub extern "C" fn st_validate_times(
    sources: &[u64],
    segments: &[u64],
    stamps: &[i64],
    log: bool,
    text: &[u8],
    scale: u64,
    starts: &[i64],
    end: i64,
    nominal: i64,
    frames: &mut u64,
    index: &mut u64,
) -> u64
    ensures { (result, frames.new, index.new)
        ≡ told itself
        (validate_of (table_of sources.now segments.now stamps.now log text.now)
        (timed starts.now scale end nominal))
        frames.old }
{
    let video = Video::Times {
        scale,
        end,
        nominal,
    };
    let answer = judge::validate(sources, segments, stamps, log, text, video, starts);
    told::tell(answer, frames, index)
}

/// Judges a table by the timestamps of a MotionCam recording's frames, in nanoseconds: its frame
/// total. One timestamp is judged as one frame at the rate of segment 0's source.
/// Lent: a table, the timestamps, two working slices as long as the timestamps or longer (of one
/// timestamp, of any length). Writes both working slices (all 0), frames, index. Refuses: 1 to 17,
/// 30, 35, 34, 33, 32, 35, 33, 20, 22, 23 with 24, 25.
#[unsafe(no_mangle)]
pub extern "C" fn st_check_mcraw(
    sources: &[u64],
    segments: &[u64],
    stamps: &[i64],
    log: bool,
    text: &[u8],
    timestamps: &[i64],
    first_work: &mut [i64],
    second_work: &mut [i64],
    frames: &mut u64,
    index: &mut u64,
) -> u64
    ensures { JudgedTold (table_of sources.now segments.now stamps.now log text.now) timestamps.now
        first_work.old second_work.old frames.old result first_work.new second_work.new
        frames.new index.new }
{
    let answer = judge::check_mcraw(
        sources,
        segments,
        stamps,
        log,
        text,
        timestamps,
        first_work,
        second_work,
    );
    told::tell(answer, frames, index)
}
