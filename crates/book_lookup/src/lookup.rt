// A codebook's lookup: its type, its four numbers, its multiplicands (002; 01, refusals 6 and 14).
ghost use Rattle.std.specs.Prelude.{◌≡◌, ◌+◌, ◌≤◌, length, IfOk};
ghost use Rattle.reading.specs.Reader.{mapped, many};
ghost use Rattle.bits.specs.Field.{field};
ghost use Rattle.bits.specs.Inner.Cursors.{position, outcome, Wrote};
ghost use Rattle.book.specs.LookupReading.{value_count, values, lookup};
ghost use Rattle.book.specs.Inner.LookupParts.{parameters, stored};
ghost use Rattle.book.specs.Inner.Answers.{answered};
ghost use Rattle.book_lookup.specs.Inner.Answers.{numbers_of};

use crate::root::lookup1_values;
use bits::Cursor;
use bits::refusal::{Reason, Refusal};
use book::Parameters;

// The numbers of a lookup, all 0 where there is none; the multiplicands lie in their table. No Option: the zeros are what the row of a book without a
// lookup has, and `lookup` is its type, 0, 1 or 2.
#[derive(Clone, Copy)]
pub struct Lookup {
    pub lookup: u32,
    pub minimum: u32,
    pub delta: u32,
    pub width: u32,
    pub sequence: u32,
    pub count: u32,
}

// The least value, the step, the bits of a multiplicand, and whether values run on from the last.
fn read_parameters(packet: &[u8], from: Cursor) -> Result<(Parameters, Cursor), Refusal>
    ensures { outcome result ≡ parameters packet.now (position from) }
{
    let (minimum, at_delta) = from.field(packet, 32)?;
    let (delta, at_width) = at_delta.field(packet, 32)?;
    let (bits, at_sequence) = at_width.field(packet, 4)?;
    let (sequence, next) = at_sequence.field(packet, 1)?;
    Ok((
        Parameters {
            minimum,
            delta,
            width: bits + 1,
            sequence,
        },
        next,
    ))
}

// How many multiplicands a lookup of type 1 or 2 has.
pub fn value_count(lookup: u32, entries: u32, dimensions: u32) -> u64
    ensures { result ≡ value_count lookup entries dimensions }
{
    if lookup == 1 {
        return lookup1_values(entries, dimensions) as u64;
    }
    entries as u64 * dimensions as u64
}

// A multiplicand for each place of the lent part.
fn read_multiplicands(
    packet: &[u8],
    from: Cursor,
    width: usize,
    part: &mut [u16],
) -> Result<Cursor, Refusal>
    requires { width ≤ 16 }
    ensures { Wrote (many (field width) (length part.old) packet.now (position from)) result part.new }
{
    let mut at = from;
    for place in part.iter_mut() {
        let (multiplicand, next) = at.field(packet, width)?;
        *place = multiplicand as u16;
        at = next;
    }
    Ok(at)
}

// What follows a type that is not 0: `multiplicand_count` multiplicands go from place `first` of their table on, and `most` is the limit for all.
fn read_values(
    packet: &[u8],
    from: Cursor,
    place: Cursor,
    lookup: u32,
    multiplicand_count: u64,
    first: u32,
    most: u32,
    multiplicands: &mut [u16],
) -> Result<(Lookup, Cursor), Refusal>
    requires { (first ≤ most) × (most ≤ length multiplicands.old) }
    ensures wrote { answered (λ l. (numbers_of l, multiplicands.new)) result
        ≡ mapped (stored multiplicands.old first)
        (values (position place) lookup multiplicand_count most first packet.now (position from)) }
    ensures count_bound { IfOk result (λ x. first + x.0.count ≤ most) }
{
    let (p, at_values) = read_parameters(packet, from)?;
    if ((most - first) as u64) < multiplicand_count {
        return Err(Refusal {
            reason: Reason::Limit,
            place,
        });
    }
    let start = first as usize;
    let end = start + multiplicand_count as usize;
    let part = &mut multiplicands[start..end];
    let next = read_multiplicands(packet, at_values, p.width as usize, part)?;
    Ok((
        Lookup {
            lookup,
            minimum: p.minimum,
            delta: p.delta,
            width: p.width,
            sequence: p.sequence,
            count: multiplicand_count as u32,
        },
        next,
    ))
}

// The lookup of a book of so many entries and dimensions. `place` is the book's first bit.
pub fn read_lookup(
    packet: &[u8],
    from: Cursor,
    place: Cursor,
    entries: u32,
    dimensions: u32,
    first: u32,
    most: u32,
    multiplicands: &mut [u16],
) -> Result<(Lookup, Cursor), Refusal>
    requires { (first ≤ most) × (most ≤ length multiplicands.old) }
    ensures wrote { answered (λ l. (numbers_of l, multiplicands.new)) result
        ≡ mapped (stored multiplicands.old first)
        (lookup (position place) entries dimensions most first packet.now (position from)) }
    ensures count_bound { IfOk result (λ x. first + x.0.count ≤ most) }
{
    let (lookup, next) = from.field(packet, 4)?;
    if 2 < lookup {
        return Err(Refusal {
            reason: Reason::Codebook,
            place: from,
        });
    }
    if lookup == 0 {
        let none = Lookup {
            lookup: 0,
            minimum: 0,
            delta: 0,
            width: 0,
            sequence: 0,
            count: 0,
        };
        return Ok((none, next));
    }
    let multiplicand_count = value_count(lookup, entries, dimensions);
    read_values(
        packet,
        next,
        place,
        lookup,
        multiplicand_count,
        first,
        most,
        multiplicands,
    )
}
