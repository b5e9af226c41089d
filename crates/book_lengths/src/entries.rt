// A codebook's entries: the lengths, all read, then entered into an empty space of their own (01, "Order"; refusals 7 and 8).
ghost use Rattle.std.specs.Prelude.{◌≡◌, ◌+◌, ◌<◌, ◌≤◌, length};
ghost use Rattle.reading.specs.Outcome.{ok};
ghost use Rattle.reading.specs.Reader.{mapped};
ghost use Rattle.bits.specs.Inner.Cursors.{position, Wrote};
ghost use Rattle.book.specs.LengthsReading.{entered};
ghost use Rattle.book.specs.Inner.LengthsParts.{entries, coded, stored};

use crate::lengths::read_lengths;
use bits::Cursor;
use bits::refusal::{Reason, Refusal};
use codeword_assignment::book::{Unassigned, assign_codewords};

// Lengths entered into an empty space of their own. `place` is the book's first bit, `next` the one behind its lengths.
fn enter_lengths(
    lengths: &[u8],
    codewords: &mut [u32],
    place: Cursor,
    next: Cursor,
) -> Result<Cursor, Refusal>
    requires { length lengths.now ≡ length codewords.old }
    ensures { Wrote (mapped coded (entered (position place) lengths.now (ok (lengths.now, position next)))) result
        (lengths.now, codewords.new) }
{
    match assign_codewords(lengths, codewords) {
        Ok(()) => Ok(next),
        Err(Unassigned::Overspecified(_)) => Err(Refusal {
            reason: Reason::Overspecified,
            place,
        }),
        Err(Unassigned::Underspecified) => Err(Refusal {
            reason: Reason::Underspecified,
            place,
        }),
        Err(Unassigned::TooShort) => Err(Refusal {
            reason: Reason::Room,
            place,
        }),
    }
}

// The lengths and the codewords, each into a lent part of a place for each entry. `place` is the book's first bit.
pub fn read_entries(
    packet: &[u8],
    from: Cursor,
    place: Cursor,
    lengths: &mut [u8],
    codewords: &mut [u32],
) -> Result<Cursor, Refusal>
    requires { (length lengths.old < 4294967296) × (length lengths.old ≡ length codewords.old) }
    ensures { Wrote (mapped coded (entries (position place) (length lengths.old) packet.now (position from))) result
        (lengths.new, codewords.new) }
{
    let next = read_lengths(packet, from, place, lengths)?;
    enter_lengths(lengths, codewords, place, next)
}

// The entries of a book, `entry_count` of them, from place `first` of the tables of all entries on.
pub fn read_entries_at(
    packet: &[u8],
    from: Cursor,
    place: Cursor,
    first: u32,
    entry_count: u32,
    lengths: &mut [u8],
    codewords: &mut [u32],
) -> Result<Cursor, Refusal>
    requires { (first + entry_count ≤ length lengths.old) × (first + entry_count ≤ length codewords.old) }
    ensures { Wrote (mapped (stored lengths.old codewords.old first)
        (entries (position place) entry_count packet.now (position from))) result
        (lengths.new, codewords.new) }
{
    let start = first as usize;
    let end = start + entry_count as usize;
    read_entries(
        packet,
        from,
        place,
        &mut lengths[start..end],
        &mut codewords[start..end],
    )
}
