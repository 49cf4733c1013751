//! Frame times: of a movie's video track, and of a MotionCam recording's timestamps.
ghost use Rattle.segment_table.specs.Written.{McrawTold, MoovTold};

/// The frame times of a MotionCam recording, of its frames' timestamps in nanoseconds: how many,
/// their scale (1,000,000,000), the nominal interval and the end; the starts count from the first
/// timestamp. Lent: the timestamps, room for the starts, a working slice; both as long as the
/// timestamps or longer. Writes starts, work (all 0), frames, scale, nominal, end, index. Refuses:
/// 30, 31, 34, 33, 32, 31, 33.
#[unsafe(no_mangle)]
pub extern "C" fn st_mcraw_times(
    timestamps: &[i64],
    starts: &mut [i64],
    work: &mut [i64],
    frames: &mut u64,
    scale: &mut u64,
    nominal: &mut i64,
    end: &mut i64,
    index: &mut u64,
) -> u64
    ensures { McrawTold timestamps.now starts.old work.old frames.old scale.old nominal.old end.old
        result starts.new work.new frames.new scale.new nominal.new end.new index.new }
{
    let answer = mcraw::mcraw_times(timestamps, starts, work);
    told::several::tell_times(answer, frames, scale, nominal, end, index)
}

/// The frame times of a moov's first video track: how many, their timescale, the nominal interval
/// and the end; the starts in presentation order. The mvhd and that track have to be found in moov,
/// and in the track mdia, mdhd, minf, stbl and stts: where one isn't, it is 31, or 36 with the
/// offset in moov of the broken header that hides it. A track that is broken before its hdlr, or at
/// it, isn't seen to be of video, and is passed over; where there is no other video track, the
/// answer goes by how the boxes of moov itself end. Where a broken header hides ctts, edts or elst,
/// that counts as absent. With standard the composition offsets of a ctts of version 0 are unsigned,
/// as ISO/IEC 14496-12 has them, and of any other version signed; without it they are signed in
/// every version, as in the Rust. Without it is also how to read a QuickTime file that has negative
/// offsets in version 0, as Apple describes them as signed. Where no offset of version 0 has its top
/// bit set, both answer the same.
/// Lent: the payload of a moov box (where a file has none, st_find_box says why, with an offset in
/// the file), room for the starts, two working slices as long. As many elements as the track has
/// frames are enough for each; it has no more than moov has bytes, else it is 31. Writes starts,
/// both working slices (all 0), frames, scale, nominal, end, index. Refuses: 30, 31 or 36, 32, 31,
/// 33.
#[unsafe(no_mangle)]
pub extern "C" fn st_video_frame_times_of_moov(
    moov: &[u8],
    standard: bool,
    starts: &mut [i64],
    first_work: &mut [i64],
    second_work: &mut [i64],
    frames: &mut u64,
    scale: &mut u64,
    nominal: &mut i64,
    end: &mut i64,
    index: &mut u64,
) -> u64
    ensures { MoovTold standard moov.now starts.old first_work.old second_work.old frames.old
        scale.old nominal.old end.old result starts.new first_work.new second_work.new frames.new
        scale.new nominal.new end.new index.new }
{
    let answer = frame_times::video_frame_times_of_moov(
        moov,
        standard,
        starts,
        first_work,
        second_work,
    );
    told::several::tell_times(answer, frames, scale, nominal, end, index)
}
