// A book's row of the table of books. docs/TABLES.md draws it. A number past the table's end reads as zero.
ghost use Rattle.std.specs.Prelude.{◌≡◌, ◌*◌, ◌<◌, get_or, drop};
ghost use Rattle.book.specs.Layout.{book_width};
ghost use Rattle.book_tables.specs.Inner.Rules.{row_of};

use book::WIDTH;
use reading::buffers::get;

#[derive(Clone, Copy)]
pub struct Row {
    pub dimensions: u32,
    pub entries: u32,
    // How many entries the books before it have.
    pub first_entry: u32,
    pub lookup: u32,
    pub minimum: u32,
    pub delta: u32,
    pub width: u32,
    pub sequence: u32,
    pub count: u32,
    // How many multiplicands the books before it have.
    pub first_value: u32,
    // The number of its sole used entry of length 1 plus one, or 0 where it has none.
    pub lone: u32,
}

// Number `column` of the row of book `index`. Not by crate book_row, whose contract names the place in the whole table: here the table is dropped up to the
// row.
fn number(books: &[u32], index: u32, column: usize) -> u32
    requires { column < book_width }
    ensures { result ≡ get_or (drop (book_width * index) books.now) column 0 }
{
    get(books, WIDTH * index as usize + column)
}

// All eleven.
pub fn row_at(books: &[u32], index: u32) -> Row
    ensures { result ≡ row_of (drop (book_width * index) books.now) }
{
    Row {
        dimensions: number(books, index, 0),
        entries: number(books, index, 1),
        first_entry: number(books, index, 2),
        lookup: number(books, index, 3),
        minimum: number(books, index, 4),
        delta: number(books, index, 5),
        width: number(books, index, 6),
        sequence: number(books, index, 7),
        count: number(books, index, 8),
        first_value: number(books, index, 9),
        lone: number(books, index, 10),
    }
}
