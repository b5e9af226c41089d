// What follows the books of a setup packet, and the counts of all, written into tables that are lent as they are: each is cleared before it is filled.
ghost use Rattle.std.specs.Prelude.{◌≡◌, [], ◌∷◌, ◌≤◌, length};
ghost use Rattle.reading.specs.Outcome.{ok, then};
ghost use Rattle.reading.specs.Pad.{pad};
ghost use Rattle.bits.specs.Inner.Cursors.{position, stepped};
ghost use Rattle.header.specs.Header.{framing};
ghost use Rattle.residue.specs.Inner.FromTable.{books_of};
ghost use Rattle.setup.specs.Inner.Parts.{ReadInto, ReadCounted, after_books, rest_part};
ghost use Rattle.setup_sections.specs.Inner.Stored.{AfterBooksStoredIn, RestStoredIn};

use bits::Cursor;
use bits::refusal::Refusal;
use reading::buffers::{clear, write};
use setup_buffers::clear_after;
use setup_sections::parts::{After, read_after_books};

// How many there are of each, from the front of the table of counts.
fn write_counts(counts: &mut [u32], book_count: u32, after: After)
    ensures { counts.new ≡ pad (length counts.old)
        (book_count ∷ after.floors ∷ after.residues ∷ after.mappings ∷ after.modes ∷ []) }
{
    clear(counts);
    let row = [
        book_count,
        after.floors,
        after.residues,
        after.mappings,
        after.modes,
    ];
    write(counts, 0, &row);
}

// Floors, residues, mappings and modes, behind `book_count` codebooks.
fn read_after(
    packet: &[u8],
    from: Cursor,
    channels: u32,
    book_count: u32,
    books: &[u32],
    floors: &mut [u16],
    residues: &mut [u32],
    plans: &mut [u16],
    mappings: &mut [u8],
    modes: &mut [u8],
) -> Result<(After, Cursor), Refusal>
    requires { (1 ≤ channels) × (channels ≤ 255) × (book_count ≤ 256) }
    ensures { ReadCounted (after_books channels (books_of book_count books.now) packet.now (position from)) result
        (λ after. AfterBooksStoredIn after.floors after.residues after.mappings after.modes floors residues plans mappings modes) }
{
    clear_after(floors, residues, plans, mappings, modes);
    read_after_books(
        packet, from, channels, book_count, books, floors, residues, plans, mappings, modes,
    )
}

fn read_framing(packet: &[u8], from: Cursor) -> Result<Cursor, Refusal>
    ensures { stepped result ≡ then (framing packet.now (position from)) (λ x. ok x.1) }
{
    let (_, next) = header::framing(packet, from)?;
    Ok(next)
}

// What follows the books, and the counts of all.
pub fn read_rest(
    packet: &[u8],
    from: Cursor,
    channels: u32,
    book_count: u32,
    books: &[u32],
    counts: &mut [u32],
    floors: &mut [u16],
    residues: &mut [u32],
    plans: &mut [u16],
    mappings: &mut [u8],
    modes: &mut [u8],
) -> Result<Cursor, Refusal>
    requires { (1 ≤ channels) × (channels ≤ 255) × (book_count ≤ 256) }
    ensures { ReadInto (rest_part channels (books_of book_count books.now) packet.now (position from)) result
        (RestStoredIn book_count counts floors residues plans mappings modes) }
{
    let (after, at_framing) = read_after(
        packet, from, channels, book_count, books, floors, residues, plans, mappings, modes,
    )?;
    write_counts(counts, book_count, after);
    read_framing(packet, at_framing)
}
