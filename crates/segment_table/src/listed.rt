//! Lists of records: the lookup over a table whose segments are lent as a list of structs.
ghost use Rattle.std.specs.Prelude.{◌≡◌};
ghost use Rattle.records.specs.Records.{locate};
ghost use Rattle.told.specs.Told.{told, itself};

use records::TrimSegment;

/// The segment of a frame, over a list of records instead of words; the answer is
/// st_segment_of_frame's. Lent: the sources' words, the text, the records. Writes segment, index.
/// Refuses: 1 to 17.
#[unsafe(no_mangle)]
pub extern "C" fn st_segment_of_frame_records(
    sources: &[u64],
    text: &[u8],
    records: &[TrimSegment],
    log: bool,
    frame: u64,
    segment: &mut u64,
    index: &mut u64,
) -> u64
    ensures { (result, segment.new, index.new)
        ≡ told itself (locate sources.now text.now records.now log frame) segment.old }
{
    let answer = records::segment_of_frame_records(sources, text, records, log, frame);
    told::tell(answer, segment, index)
}
