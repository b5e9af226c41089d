// The numbers of a codebook, read from its row in the table of books: `book` is the book's number, its row begins at 11 * book. A place past the table's end
// reads as 0. Table and number stay two parameters: no contract asks anything of the number that a struct could say once.
#![tactic(auto)]

pub mod mark; // whether a book has a sole used entry, and which

ghost use Rattle.std.specs.Prelude.{◌≡◌, ◌<◌};
ghost use Rattle.book.specs.Layout.{book_width, number_at, dimensions_at, entries_at, first_entry_at, lookup_at, lone_at};

use book::WIDTH;

// Number `column` of a book's row.
fn number(books: &[u32], book: u32, column: usize) -> u32
    requires { column < book_width }
    ensures { result ≡ number_at books.now book column }
{
    reading::buffers::get(books, WIDTH * book as usize + column)
}

pub fn dimensions(books: &[u32], book: u32) -> u32
    ensures { result ≡ dimensions_at books.now book }
{
    number(books, book, 0)
}

pub fn entries(books: &[u32], book: u32) -> u32
    ensures { result ≡ entries_at books.now book }
{
    number(books, book, 1)
}

pub fn first_entry(books: &[u32], book: u32) -> u32
    ensures { result ≡ first_entry_at books.now book }
{
    number(books, book, 2)
}

pub fn lookup(books: &[u32], book: u32) -> u32
    ensures { result ≡ lookup_at books.now book }
{
    number(books, book, 3)
}

// The number of the book's sole used entry of length 1 plus one, or 0 where it has none.
pub fn lone(books: &[u32], book: u32) -> u32
    ensures { result ≡ lone_at books.now book }
{
    number(books, book, 10)
}
