// Whether four tables that are handed in are the writing-out of codebooks that meet every rule (01, "What the reader takes and gives").
ghost use Rattle.std.specs.Prelude.{◌≡◌, true, ◌↔◌};
ghost use Rattle.book.specs.Inner.BookBuffers.{BookBuffers};
ghost use Rattle.book_tables.specs.Inner.Recognised.{Countable, BooksLeft, BooksRecognised, OneContent};

use crate::clear::are_clear;
use crate::judge::is_book;
use crate::row::row_at;
use book::{NEED, WIDTH};
use limits::Limits;

// The books one after the other, with how many entries and multiplicands those before have; then zeros.
fn are_rows(
    count: u32,
    limits: Limits,
    books: &[u32],
    lengths: &[u8],
    codewords: &[u32],
    multiplicands: &[u16],
) -> bool
    requires { Countable limits count × BookBuffers limits books.now lengths.now codewords.now multiplicands.now }
    ensures { (result ≡ true) ↔ BooksLeft limits count 0 0
        books.now lengths.now codewords.now multiplicands.now }
{
    let mut entries: u32 = 0;
    let mut values: u32 = 0;
    for i in 0..count {
        let row = row_at(books, i);
        if !is_book(
            limits,
            entries,
            values,
            row,
            lengths,
            codewords,
            multiplicands,
        ) {
            return false;
        }
        entries += row.entries;
        values += row.count;
    }
    are_clear(
        WIDTH * count as usize,
        entries as usize,
        values as usize,
        books,
        lengths,
        codewords,
        multiplicands,
    )
}

// Whether the tables are those of `count` books, within the limits.
pub fn are_books(
    count: u32,
    limits: Limits,
    books: &[u32],
    lengths: &[u8],
    codewords: &[u32],
    multiplicands: &[u16],
) -> bool
    requires { Countable limits count }
    ensures variant { (result ≡ true) ↔ BooksRecognised limits count
        books.now lengths.now codewords.now multiplicands.now }
    ensures one_content { OneContent limits count books.now lengths.now codewords.now multiplicands.now }
{
    NEED <= books.len()
        && limits.entries as usize <= lengths.len()
        && limits.entries as usize <= codewords.len()
        && limits.multiplicands as usize <= multiplicands.len()
        && are_rows(count, limits, books, lengths, codewords, multiplicands)
}
