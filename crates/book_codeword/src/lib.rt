// One codeword of a book that lies in the tables of a setup (01, "Bits and books"; docs/TABLES.md).
#![tactic(auto)]

ghost use Rattle.std.specs.Prelude.{◌≡◌};
ghost use Rattle.bits.specs.Inner.Cursors.{position, outcome};
ghost use Rattle.codeword.specs.Codeword.{codeword};
ghost use Rattle.codeword.specs.Inner.Claims.{Settled};
ghost use Rattle.book_codeword.specs.Inner.Stored.{entries_of, BookStored};

use bits::Cursor;
use bits::refusal::Refusal;

// The codebooks of a setup as they lie in the tables: the rows of the books, and the lengths and codewords of the entries of all books in a row.
#[derive(Clone, Copy)]
pub struct Codebooks<'a> {
    pub books: &'a [u32],
    pub lengths: &'a [u8],
    pub codewords: &'a [u32],
}

// The entry of book number `book` whose codeword stands at the cursor, with the position behind it; or the cut.
pub fn read_entry(
    packet: &[u8],
    from: Cursor,
    book: u32,
    codebooks: Codebooks,
) -> Result<(u32, Cursor), Refusal>
    requires { BookStored codebooks.books.now codebooks.lengths.now codebooks.codewords.now book }
    ensures result_value { outcome result ≡ codeword (entries_of codebooks.entry.books.now book codebooks.entry.lengths.now) packet.now (position from) }
    ensures settled { Settled (entries_of codebooks.entry.books.now book codebooks.entry.lengths.now) }
{
    let first = book_row::first_entry(codebooks.books, book) as usize;
    let end = first + book_row::entries(codebooks.books, book) as usize;
    let lone = book_row::lone(codebooks.books, book);
    codeword::read_codeword(
        packet,
        from,
        lone,
        &codebooks.lengths[first..end],
        &codebooks.codewords[first..end],
    )
}
