//! Boxes: sizes, the walk, the child of a type, the search in a range, the table's text.
ghost use Rattle.std.specs.Prelude.{◌≡◌};
ghost use Rattle.boxes.specs.Boxes.{box_size, children_at};
ghost use Rattle.boxes.specs.Places.{child_place, find_box_place, table_text_place};
ghost use Rattle.told.specs.Told.{told, size_words, box_words, place_words};

/// The size of the box at the start of data, and of its header, where `remaining` bytes are left of
/// what it is in. Lent: the bytes at hand. Writes size, header, index. Refuses: 30, 31.
#[unsafe(no_mangle)]
pub extern "C" fn st_box_size(
    data: &[u8],
    remaining: u64,
    size: &mut u64,
    header: &mut u64,
    index: &mut u64,
) -> u64
    ensures { (result, (size.new, header.new), index.new)
        ≡ told size_words (box_size «data».now remaining) (size.old, header.old) }
{
    told::several::tell_size(boxes::box_size(data, remaining), size, header, index)
}

/// The box at offset `at` of payload: its type (`kind`, its four bytes, big-endian), where its
/// payload lies, and where the next box is. From 0 on, and then from each answer's `next`, all boxes
/// are met, in order, until 31: fewer than 8 bytes are left there, or 36: a broken header stands
/// there, and the index is `at`. Lent: a box's payload. Writes kind, start, length, next, index.
/// Refuses: 30, 42, 31 or 36.
#[unsafe(no_mangle)]
pub extern "C" fn st_children(
    payload: &[u8],
    at: u64,
    kind: &mut u32,
    start: &mut u64,
    length: &mut u64,
    next: &mut u64,
    index: &mut u64,
) -> u64
    ensures { (result, (kind.new, start.new, length.new, next.new), index.new)
        ≡ told box_words (children_at payload.now at) (kind.old, start.old, length.old, next.old) }
{
    let answer = boxes::children(payload, at as usize);
    told::several::tell_box(answer, kind, start, length, next, index)
}

/// Where the payload of the first child of a type lies in payload; `kind` is the type's four bytes,
/// big-endian. It is 31 where the boxes end without it, and 36 where a broken header ends them
/// before, with its offset in payload. Lent: a box's payload. Writes start, length, index. Refuses:
/// 30, 31 or 36.
#[unsafe(no_mangle)]
pub extern "C" fn st_child(
    payload: &[u8],
    kind: u32,
    start: &mut u64,
    length: &mut u64,
    index: &mut u64,
) -> u64
    ensures { (result, (start.new, length.new), index.new)
        ≡ told place_words (child_place payload.now kind) (start.old, length.old) }
{
    told::several::tell_place(boxes::child_place(payload, kind), start, length, index)
}

/// Where the payload of the first box of a type among those of from..to lies in bytes. It is 31
/// where the boxes end without it, and 36 where a broken header ends them before, with its offset in
/// the whole of bytes. With text_types a type with a byte outside 20..7E hex makes a header broken.
/// Lent: the bytes. Writes start, length, index. Refuses: 30, 42, 31 or 36.
#[unsafe(no_mangle)]
pub extern "C" fn st_find_box(
    bytes: &[u8],
    from: u64,
    to: u64,
    kind: u32,
    text_types: bool,
    start: &mut u64,
    length: &mut u64,
    index: &mut u64,
) -> u64
    ensures { (result, (start.new, length.new), index.new)
        ≡ told place_words (find_box_place bytes.now from to kind text_types)
        (start.old, length.old) }
{
    let answer = boxes::find_box_place(bytes, from as usize, to as usize, kind, text_types);
    told::several::tell_place(answer, start, length, index)
}

/// Where a file's segment table has its text: the payload of the only moov/udta/MTRM box. Where a
/// broken header hides it, it is 40 too.
/// Lent: the file's bytes. Writes start, length, index. Refuses: 30, 40, 41.
#[unsafe(no_mangle)]
pub extern "C" fn st_table_text(
    file: &[u8],
    start: &mut u64,
    length: &mut u64,
    index: &mut u64,
) -> u64
    ensures { (result, (start.new, length.new), index.new)
        ≡ told place_words (table_text_place file.now) (start.old, length.old) }
{
    told::several::tell_place(boxes::table_text_place(file), start, length, index)
}
