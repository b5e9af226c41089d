// Codebooks read into their four tables: a row for each book, the lengths and codewords of all entries, all multiplicands.
ghost use Rattle.std.specs.Prelude.{◌≡◌, [], ◌∷◌, ◌++◌, ◌+◌, ◌*◌, ◌<◌, ◌≤◌, length, IfOk};
ghost use Rattle.std.proofs.lemmas.List.Edits.{sets};
ghost use Rattle.reading.specs.Reader.{mapped, into, into1};
ghost use Rattle.bits.specs.Inner.Cursors.{position};
ghost use Rattle.book.specs.Layout.{book_width};
ghost use Rattle.book.specs.HeadReading.{totals};
ghost use Rattle.book.specs.LookupReading.{lookup};
ghost use Rattle.book_lookup.specs.Inner.Answers.{numbers_of};
ghost use Rattle.book.specs.Reading.{book};
ghost use Rattle.book.specs.Inner.Answers.{answered};
ghost use Rattle.book.specs.Inner.Parts.{body, section};
ghost use Rattle.book.specs.Inner.Layout.{put_book, tables, finished};
ghost use Rattle.book.specs.Inner.BookBuffers.{BookBuffers, Begins, BookAt};

use bits::Cursor;
use bits::refusal::Refusal;
use book::{Head, WIDTH};
use book_head::head::read_head;
use book_lengths::entries::read_entries_at;
use book_lookup::lookup::{Lookup, read_lookup};
use book_row::mark::lone_mark_at;
use limits::Limits;
use reading::buffers::write;

// How many entries and multiplicands the books read so far have.
#[derive(Clone, Copy)]
pub struct Totals {
    pub entries: u32,
    pub values: u32,
}

// A book whose head is read: its first bit, its head, the limit on multiplicands, its number, and how many entries and multiplicands the books before it have.
#[derive(Clone, Copy)]
struct BookStart {
    place: Cursor,
    head: Head,
    most: u32,
    index: u32,
    entries: u32,
    values: u32,
}

// A book's row, at its place in the table of books.
fn write_row(books: &mut [u32], at: BookStart, l: Lookup, lone: u32)
    requires { at.index < 256 }
    ensures { books.new
        ≡ sets books.old (book_width * at.index)
        (at.head.dimensions ∷ at.head.entries ∷ at.entries ∷ (numbers_of l ++ (at.values ∷ lone ∷ []))) }
{
    let first_entry = at.entries;
    let first_value = at.values;
    let row = [
        at.head.dimensions,
        at.head.entries,
        first_entry,
        l.lookup,
        l.minimum,
        l.delta,
        l.width,
        l.sequence,
        l.count,
        first_value,
        lone,
    ];
    write(books, WIDTH * at.index as usize, &row);
}

// What follows a book's lengths: its lookup and its row. `lone` is the mark of its lengths.
fn finish_book(
    packet: &[u8],
    from: Cursor,
    at: BookStart,
    lone: u32,
    books: &mut [u32],
    multiplicands: &mut [u16],
) -> Result<(Totals, Cursor), Refusal>
    requires { (at.index < 256) × (at.entries + at.head.entries ≤ 16777216)
        × (at.values ≤ at.most) × (at.most ≤ length multiplicands.old) × (at.most ≤ 16777216) }
    ensures wrote { answered (λ t. (books.new, multiplicands.new, t.values)) result
        ≡ mapped (finished books.old multiplicands.old at.head at.index at.entries at.values lone)
        (lookup (position at.place) at.head.entries at.head.dimensions at.most at.values packet.now (position from)) }
    ensures entries_value { IfOk result (λ x. (x.0.entries ≡ at.entries + at.head.entries) × (x.0.values ≤ at.most)) }
{
    let (l, next) = read_lookup(
        packet,
        from,
        at.place,
        at.head.entries,
        at.head.dimensions,
        at.values,
        at.most,
        multiplicands,
    )?;
    write_row(books, at, l, lone);
    Ok((
        Totals {
            entries: at.entries + at.head.entries,
            values: at.values + l.count,
        },
        next,
    ))
}

// What follows a book's head. The four tables of books are lent one by one in this crate: `LentTablesMut` is of crate setup, which stands above.
fn read_body(
    packet: &[u8],
    from: Cursor,
    at: BookStart,
    books: &mut [u32],
    lengths: &mut [u8],
    codewords: &mut [u32],
    multiplicands: &mut [u16],
) -> Result<(Totals, Cursor), Refusal>
    requires { BookAt at.head.entries at.most at.index at.entries at.values lengths.old codewords.old multiplicands.old }
    ensures wrote { answered
        (λ t. tables books.new lengths.new codewords.new multiplicands.new (at.index + 1) t.entries t.values) result
        ≡ into1 put_book (body (position at.place) at.head at.most at.values packet.now (position from))
        (tables books.old lengths.old codewords.old multiplicands.old at.index at.entries at.values) }
    ensures entries_bound { IfOk result (λ x. (x.0.entries ≤ at.entries + at.head.entries) × (x.0.values ≤ at.most)) }
{
    let next = read_entries_at(
        packet,
        from,
        at.place,
        at.entries,
        at.head.entries,
        lengths,
        codewords,
    )?;
    let lone = lone_mark_at(lengths, at.entries, at.head.entries);
    finish_book(packet, next, at, lone, books, multiplicands)
}

// Book number `index`, behind books of so many entries and multiplicands.
pub fn read_book(
    packet: &[u8],
    from: Cursor,
    limits: Limits,
    index: u32,
    entries: u32,
    values: u32,
    books: &mut [u32],
    lengths: &mut [u8],
    codewords: &mut [u32],
    multiplicands: &mut [u16],
) -> Result<(Totals, Cursor), Refusal>
    requires { BookBuffers limits books.old lengths.old codewords.old multiplicands.old × Begins limits index entries values }
    ensures wrote { answered
        (λ t. tables books.new lengths.new codewords.new multiplicands.new (index + 1) t.entries t.values) result
        ≡ into1 put_book (book limits (totals entries values) packet.now (position from))
        (tables books.old lengths.old codewords.old multiplicands.old index entries values) }
    ensures entries_le_entries { IfOk result (λ x. (x.0.entries ≤ limits.entries) × (x.0.values ≤ limits.multiplicands)) }
{
    let (head, next) = read_head(packet, from, limits, entries)?;
    let at = BookStart {
        place: from,
        head,
        most: limits.multiplicands,
        index,
        entries,
        values,
    };
    read_body(packet, next, at, books, lengths, codewords, multiplicands)
}

// `count` books one after the other, from the front of the tables.
pub fn read_books(
    packet: &[u8],
    from: Cursor,
    count: u32,
    limits: Limits,
    books: &mut [u32],
    lengths: &mut [u8],
    codewords: &mut [u32],
    multiplicands: &mut [u16],
) -> Result<(Totals, Cursor), Refusal>
    requires { BookBuffers limits books.old lengths.old codewords.old multiplicands.old × (count ≤ 256) }
    ensures wrote { answered
        (λ t. tables books.new lengths.new codewords.new multiplicands.new count t.entries t.values) result
        ≡ into put_book (section limits count packet.now (position from))
        (tables books.old lengths.old codewords.old multiplicands.old 0 0 0) }
    ensures entries_le_entries { IfOk result (λ x. (x.0.entries ≤ limits.entries) × (x.0.values ≤ limits.multiplicands)) }
{
    let mut at = from;
    let mut so_far = Totals {
        entries: 0,
        values: 0,
    };
    for index in 0..count {
        let (totals, next) = read_book(
            packet,
            at,
            limits,
            index,
            so_far.entries,
            so_far.values,
            books,
            lengths,
            codewords,
            multiplicands,
        )?;
        so_far = totals;
        at = next;
    }
    Ok((so_far, at))
}
