// Nothing but zeros behind what is written in the four tables.
ghost use Rattle.std.specs.Prelude.{true, ◌↔◌, ◌≡◌, drop};
ghost use Rattle.book_tables.specs.Inner.Recognised.{Clear};

use reading::zeros::zeros;

// `rows` numbers of rows, and so many entries and multiplicands, are written. The tables are lent one by one in this crate: `LentTables` is of crate setup,
// which stands above.
pub fn are_clear(
    rows: usize,
    entries: usize,
    values: usize,
    books: &[u32],
    lengths: &[u8],
    codewords: &[u32],
    multiplicands: &[u16],
) -> bool
    ensures { (result ≡ true) ↔ Clear
        (drop rows books.now) (drop entries lengths.now)
        (drop entries codewords.now) (drop values multiplicands.now) }
{
    zeros(books, rows)
        && zeros(lengths, entries)
        && zeros(codewords, entries)
        && zeros(multiplicands, values)
}
