// The partition classes of a floor (004, "header decode", steps 7 to 12). `book_count` is how many codebooks are set up.
#![tactic(auto)]

ghost use Rattle.std.specs.Prelude.{◌≡◌, ◌+◌, ◌*◌, ◌^◌, ◌<◌, ◌≤◌};
ghost use Rattle.reading.specs.Reader.{many, into, into1};
ghost use Rattle.reading.specs.Inner.Table.{table, put_row};
ghost use Rattle.bits.specs.Inner.Cursors.{position, outcome, Wrote};
ghost use Rattle.numbers.specs.Inner.Cell.{cell};
ghost use Rattle.floor.specs.Layout.{class_row, class_width};
ghost use Rattle.floor.specs.ClassReading.{master_book, subclass_book, class};
ghost use Rattle.floor_class.specs.Inner.Pieces.{class_row_of};

use bits::Cursor;
use bits::refusal::{Reason, Refusal};
use floor::CLASS_WIDTH;
use reading::buffers;

// The master book's number plus one, read only where there are subclass bits; else 0. No Option: it is the number that goes into the row.
pub fn read_master_book(
    packet: &[u8],
    from: Cursor,
    book_count: u32,
    subclasses: u32,
) -> Result<(u32, Cursor), Refusal>
    requires { book_count ≤ 256 }
    ensures { outcome result ≡ master_book book_count subclasses packet.now (position from) }
{
    if subclasses == 0 {
        return Ok((0, from));
    }
    let (v, next) = from.field(packet, 8)?;
    if book_count <= v {
        return Err(Refusal {
            reason: Reason::NotSetUp,
            place: from,
        });
    }
    Ok((v + 1, next))
}

// A subclass book, into place `at`.
pub fn read_subclass_book(
    packet: &[u8],
    from: Cursor,
    book_count: u32,
    list: &mut [u16],
    at: usize,
) -> Result<Cursor, Refusal>
    ensures { Wrote (into1 (put_row cell) (subclass_book book_count packet.now (position from)) (table list.old at))
        result (table list.new (at + 1)) }
{
    let (v, next) = from.field(packet, 8)?;
    if book_count < v {
        return Err(Refusal {
            reason: Reason::NotSetUp,
            place: from,
        });
    }
    buffers::put(list, at, v as u16);
    Ok(next)
}

// `count` subclass books, into the first places.
pub fn read_subclass_books(
    packet: &[u8],
    from: Cursor,
    book_count: u32,
    count: usize,
    list: &mut [u16],
) -> Result<Cursor, Refusal>
    requires { count ≤ 8 }
    ensures { Wrote (into (put_row cell) (many (subclass_book book_count) count packet.now (position from)) (table list.old 0))
        result (table list.new count) }
{
    let mut next = from;
    for i in 0..count {
        next = read_subclass_book(packet, next, book_count, list, i)?;
    }
    Ok(next)
}

// The subclass books of a class whose other numbers are known, and with them its row, from place `at` on.
pub fn read_class_row(
    packet: &[u8],
    from: Cursor,
    book_count: u32,
    dimensions: u32,
    subclasses: u32,
    master: u32,
    classes: &mut [u16],
    at: usize,
) -> Result<Cursor, Refusal>
    requires { (dimensions ≤ 8) × (subclasses ≤ 3) × (master ≤ 256) × (at ≤ 165) }
    ensures { Wrote (into1 (put_row (class_row_of dimensions subclasses master))
        (many (subclass_book book_count) (2 ^ subclasses) packet.now (position from)) (table classes.old at))
        result (table classes.new (at + class_width)) }
{
    let mut list = [0u16; 8];
    let next = read_subclass_books(packet, from, book_count, 1 << subclasses, &mut list)?;
    let head = [dimensions as u16, subclasses as u16, master as u16];
    numbers::write_pair(classes, at, &head, &list);
    Ok(next)
}

// A class, its row from place `at` on.
pub fn read_class(
    packet: &[u8],
    from: Cursor,
    book_count: u32,
    classes: &mut [u16],
    at: usize,
) -> Result<Cursor, Refusal>
    requires { (book_count ≤ 256) × (at ≤ 165) }
    ensures { Wrote (into1 (put_row class_row) (class book_count packet.now (position from)) (table classes.old at))
        result (table classes.new (at + class_width)) }
{
    let (dimensions, at_subclasses) = from.field(packet, 3)?;
    let (subclasses, at_master) = at_subclasses.field(packet, 2)?;
    let (master, at_books) = read_master_book(packet, at_master, book_count, subclasses)?;
    read_class_row(
        packet,
        at_books,
        book_count,
        dimensions + 1,
        subclasses,
        master,
        classes,
        at,
    )
}

// `count` classes, their rows one after the other.
pub fn read_classes(
    packet: &[u8],
    from: Cursor,
    book_count: u32,
    count: usize,
    classes: &mut [u16],
) -> Result<Cursor, Refusal>
    requires { (book_count ≤ 256) × (count ≤ 16) }
    ensures { Wrote (into (put_row class_row) (many (class book_count) count packet.now (position from)) (table classes.old 0))
        result (table classes.new (class_width * count)) }
{
    let mut next = from;
    for i in 0..count {
        next = read_class(packet, next, book_count, classes, CLASS_WIDTH * i)?;
    }
    Ok(next)
}
