// The values of one partition (004, "packet decode", steps 6 to 18). `class` is the number of the partition's class.
ghost use Rattle.std.specs.Prelude.{◌≡◌, ◌+◌, ◌≤◌};
ghost use Rattle.reading.specs.Reader.{each, into, into1};
ghost use Rattle.reading.specs.Inner.Table.{table, put_row};
ghost use Rattle.bits.specs.Inner.Cursors.{position, outcome, Wrote};
ghost use Rattle.numbers.specs.Inner.Cell.{cell};
ghost use Rattle.floor_partition.specs.Partition.{class_value, chosen, value, partition, whole};
ghost use Rattle.book_codeword.specs.Inner.Stored.{lengths_in};
ghost use Rattle.floor_partition.specs.Inner.Stored.{class_in, PlaceStored, ClassStored};

use bits::Cursor;
use bits::refusal::Refusal;
use book_codeword::Codebooks;
use floor_row::FloorRow;
use reading::buffers;

// A value, into place `at` of the list: read with the book of a place, 0 where the place holds none.
fn read_value(
    packet: &[u8],
    from: Cursor,
    place: u16,
    codebooks: Codebooks,
    values: &mut [u16],
    at: usize,
) -> Result<Cursor, Refusal>
    requires { PlaceStored codebooks.books.now codebooks.lengths.now codebooks.codewords.now place }
    ensures { Wrote (into1 (put_row cell)
        (value (lengths_in codebooks.entry.books.now codebooks.entry.lengths.now) place packet.now (position from))
        (table values.old at)) result (table values.new (at + 1)) }
{
    if place == 0 {
        buffers::put(values, at, 0);
        return Ok(from);
    }
    let (entry, next) = book_codeword::read_entry(packet, from, place as u32 - 1, codebooks)?;
    buffers::put(values, at, entry as u16);
    Ok(next)
}

// The class value: read with the master book, 0 where the class has no subclass bits.
fn read_class_value(
    packet: &[u8],
    from: Cursor,
    row: FloorRow,
    class: usize,
    codebooks: Codebooks,
) -> Result<(u32, Cursor), Refusal>
    requires { ClassStored row.floors.now codebooks.books.now codebooks.lengths.now codebooks.codewords.now row.number class }
    ensures { outcome result ≡ class_value (lengths_in codebooks.entry.books.now codebooks.entry.lengths.now)
        (class_in row.entry.floors.now row.entry.number class) packet.now (position from) }
{
    if row.class_subclasses(class) == 0 {
        return Ok((0, from));
    }
    let master = row.class_master(class) as u32;
    book_codeword::read_entry(packet, from, master - 1, codebooks)
}

// A value for each dimension, into the list from place `at` on. The digits of the class value choose the books.
fn read_chosen(
    packet: &[u8],
    from: Cursor,
    row: FloorRow,
    class: usize,
    class_value: u32,
    codebooks: Codebooks,
    values: &mut [u16],
    at: usize,
) -> Result<Cursor, Refusal>
    requires { (at ≤ 65535) × ClassStored row.floors.now codebooks.books.now codebooks.lengths.now codebooks.codewords.now row.number class }
    ensures { Wrote (into (put_row cell)
        (each (value (lengths_in codebooks.entry.books.now codebooks.entry.lengths.now))
        (chosen (class_in row.entry.floors.now row.entry.number class) class_value (class_in row.entry.floors.now row.entry.number class).dimensions)
        packet.now (position from)) (table values.old at)) result
        (table values.new (at + (class_in row.entry.floors.now row.entry.number class).dimensions)) }
{
    let count = row.class_dimensions(class) as usize;
    // How many books the class has.
    let base = 1u32 << row.class_subclasses(class);
    let mut next = from;
    let mut left = class_value;
    for i in 0..count {
        let place = row.subclass_book(class, (left % base) as usize);
        next = read_value(packet, next, place, codebooks, values, at + i)?;
        left /= base;
    }
    Ok(next)
}

// The values of a partition, into the list from place `at` on.
pub fn read_partition(
    packet: &[u8],
    from: Cursor,
    row: FloorRow,
    class: usize,
    codebooks: Codebooks,
    values: &mut [u16],
    at: usize,
) -> Result<Cursor, Refusal>
    requires { (at ≤ 65535) × ClassStored row.floors.now codebooks.books.now codebooks.lengths.now codebooks.codewords.now row.number class }
    ensures { Wrote (into1 (put_row whole)
        (partition (lengths_in codebooks.entry.books.now codebooks.entry.lengths.now) (class_in row.entry.floors.now row.entry.number class)
        packet.now (position from)) (table values.old at)) result
        (table values.new (at + (class_in row.entry.floors.now row.entry.number class).dimensions)) }
{
    let (class_value, next) = read_class_value(packet, from, row, class, codebooks)?;
    read_chosen(packet, next, row, class, class_value, codebooks, values, at)
}
