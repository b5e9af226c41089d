// Rule 13, judged against the table of books (01, "When the packet is sent back"). How many books are set up has no part in it.
ghost use Rattle.std.specs.Prelude.{◌≡◌};
ghost use Rattle.reading.specs.Lists.{all, rows};
ghost use Rattle.residue.specs.Reading.{place_fits};
ghost use Rattle.residue.specs.Inner.FromTable.{books_of};
ghost use Rattle.residue.specs.Inner.Heads.{head_of};
ghost use Rattle.residue.specs.Inner.Plans.{head_fits};

use crate::head::Head;

// Begin is not above end, and the class words of the class book are enough.
pub fn head_fits(head: Head, books: &[u32]) -> bool
    ensures { result ≡ head_fits (books_of 0 books.now) (head_of head) }
{
    if head.end < head.begin {
        return false;
    }
    let dimensions = book_row::dimensions(books, head.classbook);
    let entries = book_row::entries(books, head.classbook);
    power::power_within(head.classifications, dimensions, entries)
}

// A place of the plan is empty, or its book has values and dimensions that divide the partition size.
pub fn place_fits(place: u32, size: u32, books: &[u32]) -> bool
    ensures { result ≡ place_fits (books_of 0 books.now) size place }
{
    if place == 0 {
        return true;
    }
    let book = place - 1;
    book_row::lookup(books, book) != 0 && size.is_multiple_of(book_row::dimensions(books, book))
}

// All places do.
pub fn places_fit(places: &[u16], size: u32, books: &[u32]) -> bool
    ensures { result ≡ all (place_fits (books_of 0 books.now) size) places.now }
{
    places
        .iter()
        .all(|&place| place_fits(place as u32, size, books))
}

// All rows of a plan do.
pub fn plan_fits(plan: &[[u16; 8]], size: u32, books: &[u32]) -> bool
    ensures { result ≡ all (place_fits (books_of 0 books.now) size) (rows (λ row. row) plan.now) }
{
    plan.iter().all(|row| places_fit(row, size, books))
}
