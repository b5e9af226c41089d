// A setup packet's content, written into all ten tables, which are lent as they are, with room: each is cleared before it is filled.
#![tactic(auto)]

pub mod rest;

ghost use Rattle.std.specs.Prelude.{true, ◌≡◌, ◌≤◌, IfOk};
ghost use Rattle.bits.specs.Inner.Cursors.{position};
ghost use Rattle.book.specs.Inner.BookBuffers.{BookBuffers};
ghost use Rattle.setup.specs.Layout.{has_room, tables};
ghost use Rattle.setup.specs.Handed.{handed, left_in};
ghost use Rattle.setup.specs.Inner.Parts.{ReadInto, ReadCounted, Small, WrittenOut, book_part, after_header};
ghost use Rattle.setup_sections.specs.Inner.Stored.{BooksStoredIn};

use crate::rest::read_rest;
use bits::Cursor;
use bits::refusal::Refusal;
use limits::Limits;
use setup_buffers::clear_books;
use setup_sections::parts::read_book_part;

// The books, and behind them the time values: how many books there are, and where reading goes on.
fn read_books(
    packet: &[u8],
    from: Cursor,
    limits: Limits,
    books: &mut [u32],
    lengths: &mut [u8],
    codewords: &mut [u32],
    multiplicands: &mut [u16],
) -> Result<(u32, Cursor), Refusal>
    requires { BookBuffers limits books.old lengths.old codewords.old multiplicands.old }
    ensures read_into { ReadCounted (book_part limits packet.now (position from)) result
        (λ count. BooksStoredIn count books lengths codewords multiplicands) }
    ensures count_bound { IfOk result (λ x. x.0 ≤ 256) }
{
    clear_books(books, lengths, codewords, multiplicands);
    read_book_part(
        packet,
        from,
        limits,
        books,
        lengths,
        codewords,
        multiplicands,
    )
}

// What follows the header. The tables are lent one by one, here and in all that this calls: the books are read while those behind them are written, and
// the check does not cover the one beside the other behind a `&mut` of `LentTablesMut`.
pub fn read_content(
    packet: &[u8],
    from: Cursor,
    limits: Limits,
    channels: u32,
    counts: &mut [u32],
    books: &mut [u32],
    lengths: &mut [u8],
    codewords: &mut [u32],
    multiplicands: &mut [u16],
    floors: &mut [u16],
    residues: &mut [u32],
    plans: &mut [u16],
    mappings: &mut [u8],
    modes: &mut [u8],
) -> Result<Cursor, Refusal>
    requires { (has_room limits (tables counts.old books.old lengths.old codewords.old multiplicands.old floors.old residues.old
        plans.old mappings.old modes.old) ≡ true) × Small limits × (1 ≤ channels) × (channels ≤ 255) }
    ensures { ReadInto (after_header limits channels packet.now (position from)) result
        (WrittenOut (handed counts books lengths codewords multiplicands floors residues plans mappings modes)
        (left_in counts books lengths codewords multiplicands floors residues plans mappings modes)) }
{
    let (book_count, next) = read_books(
        packet,
        from,
        limits,
        books,
        lengths,
        codewords,
        multiplicands,
    )?;
    read_rest(
        packet, next, channels, book_count, books, counts, floors, residues, plans, mappings, modes,
    )
}
