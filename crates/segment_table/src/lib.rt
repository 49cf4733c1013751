//! segment_table: for every frame of a trimmed and joined recording, which camera original and which
//! frame of it lies behind it. Each call is proved to answer what docs/RULES.md and its contract
//! say, for everything that may be lent.
//!
//! Answers. A call that can refuse returns the refusal's number, and 0 where it accepts. It writes
//! `index` always: the refusal's index, or 0. It writes the other words only where it accepts.
//! Slices that it fills stay as lent on a refusal, and past an accepted answer's length; working
//! slices hold 0 after every answer. Memory that is lent to be written may be unset before the call.
//!
//! Lending. A slice is a pointer and a length in elements; its pointer may be null only with length
//! 0. A slice lies in memory, where it has at most 2^63 - 1 bytes: of a call that names more nothing
//! is proved, and it may read past what is lent. A word is a pointer to one number, and is never
//! null. Pointers to numbers are aligned as C aligns them; bytes may lie anywhere. A bool is 0 or 1.
//! size_t has 64 bits. No call keeps a pointer or a state, or allocates memory: calls may run in
//! several threads at once, while none writes what another is lent.
//!
//! Overlap. What a call may write overlaps nothing else that it is lent. No proof reaches a call
//! that breaks this: memory may be corrupted. With one array as both working slices
//! st_video_frame_times_of_moov can answer wrong starts, or end in a segmentation fault, where the
//! times of 17 frames or more are in no order; of fewer, or of times in order, nothing shows it. With
//! its timestamps as the starts st_mcraw_times answers wrong starts.
//!
//! Stack, as bindings/c/stack measures it on x86-64, and on Arm in an emulator: each call takes less
//! than 4 KiB, but st_read_table and st_source_names, whose lists and objects lie one in another and
//! whose names are sorted, less than 20 KiB. Copies and cleared slices are made by the C library's
//! memmove and memset. A program whose loader binds such a name at its first call, which is what
//! many linkers make, takes some 3 KiB more for that, at its first st_join, say; how much, the loader
//! and the processor decide. Where a task has less, link with `-z now`, which binds names at the
//! start, or statically.
//!
//! A table: `sources`, thirteen words each: frames; fps numerator, denominator; creation time present
//! (0, 1), its offset and length in `text`; clock (0 none, 1 no modulus, 2 modulus), its rate's
//! numerator, denominator, its modulus; the file's size in bytes; its IMU's origin known (0, 1), and
//! that origin in microseconds. `segments`, five words each: source, source first frame, frame
//! count, out first frame, shift present (0, 1). `stamps`, seven words a segment: source start, out
//! start, duration, source capture start, out capture start, capture duration (microseconds), shift.
//! `log`: the table names a telemetry log. `text`: the creation times' bytes. Words of an absent
//! thing, a source's size and its origin are ignored.
//!
//! Sources had ten words once. A table of such sources is refused with ST_MALFORMED, but where there
//! are 13, 26, 39 or 52 of them: then the number of words is a multiple of thirteen, and nothing
//! tells the 130 words of thirteen such sources from those of ten sources as they are now.
//!
//! A table's text: JSON in UTF-8, as a file has it. `dates` are the creation times that st_read_table
//! finds in it, one after another: it is what other calls are lent as `text`.
//!
//! A list of records: the same of a segment as one struct, where its flag is a bool and its times
//! follow the words. Records are aligned as C aligns them; what lies between their fields is not
//! read.
//!
//! A map: `words`, five a row: source, source first frame, frame count, out first frame, shift
//! present (0, 1); `shifts`, one a row, 0 where it is absent.
//!
//! Frame times: `starts`, where each frame starts, in ticks of `scale` a second; `end`, where the
//! last frame ends; `nominal`, how long a frame is as a rule. Of a moov that is the most frequent
//! duration of all frames, of several the smallest; of a recording the middle interval, the lower of
//! two.
//!
//! Refusals. The index is the source in 4 to 7, the segment in 9 to 17, 23 and 24, the later
//! timestamp of the first falling pair in 34, the broken header's offset in the lent bytes in 36,
//! 1 in 32 of st_read_table and st_source_names where it is their working slice that is too short,
//! the range in 50 of st_cuts (a last one without its end is tested first), the row in 51 (0 for
//! slice lengths or no rows, which are tested first), the frame's number in the list in 54 of
//! st_origins, else 0. Each call names its refusals in the order of its tests: 4 to 7 source by
//! source, 9 to 17 and 23 with 24 segment by segment, 50 of st_cuts range by range, 54 of st_origins
//! frame by frame, a join's 51 of its first map and then of its second. `31 or 36` is by how a walk
//! over boxes ended. What each number says stands in enum st_reason, with its name.
#![tactic(auto)]

pub mod clock;
pub mod cutting;
pub mod judging;
pub mod listed;
pub mod recordings;
pub mod tables;
pub mod texts;
pub mod walk;
