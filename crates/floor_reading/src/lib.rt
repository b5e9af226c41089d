// Floors of a setup packet, read into the tables: floors of type 1 (004, "header decode"; 01, "Setup order"). A row is put together from three buffers:
// partitions, classes, X list.
#![tactic(auto)]

ghost use Rattle.std.specs.Prelude.{◌≡◌, ◌++◌, ◌+◌, ◌*◌, ◌<◌, ◌≤◌, max, length, take};
ghost use Rattle.std.proofs.lemmas.List.Edits.{sets};
ghost use Rattle.reading.specs.Reader.{many, into, into1};
ghost use Rattle.reading.specs.Inner.Table.{table, put_row};
ghost use Rattle.bits.specs.Inner.Cursors.{position, outcome, Wrote};
ghost use Rattle.floor.specs.XListReading.{ends};
ghost use Rattle.floor.specs.Layout.{floor_row, partitions_room, classes_room, floor_width, floors_need};
ghost use Rattle.floor.specs.Reading.{floor_type, floor1, floor, floor_from};
ghost use Rattle.floor.specs.Inner.Counts.{classes_to, values_to, Partitions};
ghost use Rattle.floor_reading.specs.Inner.Pieces.{row_of};

use bits::Cursor;
use bits::refusal::{Reason, Refusal};
use floor::{CLASSES_PLACE, CLASSES_ROOM, FLOOR_WIDTH, PARTITIONS_ROOM, X_LIST_ROOM};

// The type field: 0 is refusal 14, above 1 is 10.
pub fn read_type(packet: &[u8], from: Cursor) -> Result<(u32, Cursor), Refusal>
    ensures { outcome result ≡ floor_type packet.now (position from) }
{
    let (number, next) = from.field(packet, 16)?;
    if number == 0 {
        return Err(Refusal {
            reason: Reason::Limit,
            place: from,
        });
    }
    if 1 < number {
        return Err(Refusal {
            reason: Reason::UnknownType,
            place: from,
        });
    }
    Ok((number, next))
}

// A floor's row, from place `at` on.
pub fn write_row(
    floors: &mut [u16],
    at: usize,
    head: &[u16],
    partitions: &[u16],
    classes: &[u16],
    list: &[u16],
)
    requires { (at ≤ floors_need) × (length head.now ≡ 5) × (length partitions.now ≡ partitions_room) × (length classes.now ≡ classes_room) }
    ensures { floors.new ≡ sets floors.old at
        ((head.now ++ partitions.now) ++ (classes.now ++ list.now)) }
{
    numbers::write_pair(floors, at, head, partitions);
    numbers::write_pair(floors, at + CLASSES_PLACE, classes, list);
}

// The rest of a floor whose partitions and classes are read, and with it the row. It takes both buffers whole beside their counts: the row has all their places.
pub fn read_after_classes(
    packet: &[u8],
    from: Cursor,
    place: Cursor,
    partitions: &[u16],
    partition_count: usize,
    classes: &[u16],
    class_count: usize,
    floors: &mut [u16],
    at: usize,
) -> Result<Cursor, Refusal>
    requires { (partition_count ≤ 31) × (class_count ≤ 16) × (at ≤ floors_need)
        × (length partitions.now ≡ partitions_room) × (length classes.now ≡ classes_room) }
    ensures { Wrote (into1 (put_row (row_of partition_count class_count partitions.now classes.now))
        (ends (position place) (values_to classes.now partitions.now partition_count) packet.now (position from))
        (table floors.old at)) result (table floors.new (at + floor_width)) }
{
    let values = floor_row::counts::value_count(partitions, partition_count, classes);
    let mut list = [0u16; X_LIST_ROOM];
    let (ends, next) = floor_x_list::read_ends(packet, from, place, values, &mut list)?;
    let head = [
        partition_count as u16,
        class_count as u16,
        ends.multiplier as u16,
        ends.rangebits as u16,
        (2 + values) as u16,
    ];
    write_row(floors, at, &head, partitions, classes, &list);
    Ok(next)
}

// The rest of a floor whose partitions are read.
pub fn read_after_partitions(
    packet: &[u8],
    from: Cursor,
    place: Cursor,
    book_count: u32,
    partitions: &[u16],
    partition_count: usize,
    floors: &mut [u16],
    at: usize,
) -> Result<Cursor, Refusal>
    requires { (book_count ≤ 256) × (at ≤ floors_need) × Partitions partition_count partitions.now }
    ensures { Wrote (into1 (put_row floor_row)
        (floor_from book_count (position place) (take partition_count partitions.now) packet.now (position from))
        (table floors.old at)) result (table floors.new (at + floor_width)) }
{
    let class_count = floor_row::counts::class_count(partitions, partition_count);
    let mut classes = [0u16; CLASSES_ROOM];
    let next = floor_class::read_classes(packet, from, book_count, class_count, &mut classes)?;
    read_after_classes(
        packet,
        next,
        place,
        partitions,
        partition_count,
        &classes,
        class_count,
        floors,
        at,
    )
}

// A floor behind its type, which stands at `place`.
pub fn read_floor1(
    packet: &[u8],
    from: Cursor,
    place: Cursor,
    book_count: u32,
    floors: &mut [u16],
    at: usize,
) -> Result<Cursor, Refusal>
    requires { (book_count ≤ 256) × (at ≤ floors_need) }
    ensures { Wrote (into1 (put_row floor_row) (floor1 book_count (position place) packet.now (position from))
        (table floors.old at)) result (table floors.new (at + floor_width)) }
{
    let (field, next) = from.field(packet, 5)?;
    let count = field as usize;
    let mut partitions = [0u16; PARTITIONS_ROOM];
    let after = numbers::read_numbers(packet, next, 4, count, &mut partitions, 0)?;
    read_after_partitions(
        packet,
        after,
        place,
        book_count,
        &partitions,
        count,
        floors,
        at,
    )
}

// A floor, its row from place `at` on. `book_count` is how many codebooks are set up.
pub fn read_floor(
    packet: &[u8],
    from: Cursor,
    book_count: u32,
    floors: &mut [u16],
    at: usize,
) -> Result<Cursor, Refusal>
    requires { (book_count ≤ 256) × (at ≤ floors_need) }
    ensures { Wrote (into1 (put_row floor_row) (floor book_count packet.now (position from)) (table floors.old at))
        result (table floors.new (at + floor_width)) }
{
    let (_, next) = read_type(packet, from)?;
    read_floor1(packet, next, from, book_count, floors, at)
}

// `count` floors, their rows one after the other.
pub fn read_floors(
    packet: &[u8],
    from: Cursor,
    count: usize,
    book_count: u32,
    floors: &mut [u16],
) -> Result<Cursor, Refusal>
    requires { (count ≤ 64) × (book_count ≤ 256) }
    ensures { Wrote (into (put_row floor_row) (many (floor book_count) count packet.now (position from)) (table floors.old 0))
        result (table floors.new (floor_width * count)) }
{
    let mut next = from;
    for i in 0..count {
        next = read_floor(packet, next, book_count, floors, FLOOR_WIDTH * i)?;
    }
    Ok(next)
}
