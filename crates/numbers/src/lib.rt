// Runs of numbers of one width in a packet, and whether the numbers of a run differ.
#![tactic(auto)]

ghost use Rattle.std.specs.Prelude.{◌≡◌, ◌+◌, ◌≤◌, ◌++◌, length};
ghost use Rattle.std.proofs.lemmas.List.Edits.{sets};
ghost use Rattle.reading.specs.Reader.{many, into, into1};
ghost use Rattle.reading.specs.Inner.Table.{table, put_row};
ghost use Rattle.reading.specs.Lists.{distinct};
ghost use Rattle.bits.specs.Field.{field};
ghost use Rattle.bits.specs.Inner.Cursors.{position, Wrote};
ghost use Rattle.numbers.specs.Inner.Cell.{cell};

use bits::Cursor;
use bits::refusal::Refusal;
use reading::buffers;

// A number of `width` bits, into place `at`.
pub fn read_number(
    packet: &[u8],
    from: Cursor,
    width: usize,
    numbers: &mut [u16],
    at: usize,
) -> Result<Cursor, Refusal>
    requires { width ≤ 16 }
    ensures { Wrote (into1 (put_row cell) (field width packet.now (position from)) (table numbers.old at)) result
        (table numbers.new (at + 1)) }
{
    let (v, next) = from.field(packet, width)?;
    buffers::put(numbers, at, v as u16);
    Ok(next)
}

// `number_count` numbers of `width` bits, into the places from `at` on. The buffer is no part of so many places: a number past its end is read and stored
// nowhere, and a part would ask for that room.
pub fn read_numbers(
    packet: &[u8],
    from: Cursor,
    width: usize,
    number_count: usize,
    numbers: &mut [u16],
    at: usize,
) -> Result<Cursor, Refusal>
    requires { (width ≤ 16) × (number_count ≤ 63) × (at ≤ 2) }
    ensures { Wrote (into (put_row cell) (many (field width) number_count packet.now (position from))
        (table numbers.old at)) result (table numbers.new (at + number_count)) }
{
    let mut next = from;
    for i in 0..number_count {
        next = read_number(packet, next, width, numbers, at + i)?;
    }
    Ok(next)
}

// Whether no two of the numbers are equal. They are at most 65: each is compared with those behind it.
pub fn are_distinct(numbers: &[u16]) -> bool
    ensures { result ≡ distinct numbers.now }
{
    for (i, number) in numbers.iter().enumerate() {
        if numbers[i + 1..].contains(number) {
            return false;
        }
    }
    true
}

// Two runs, one after the other, from place `at` on.
pub fn write_pair(buffer: &mut [u16], at: usize, first: &[u16], second: &[u16])
    requires { (at ≤ 65535) × (length first.now ≤ 65535) }
    ensures { buffer.new ≡ sets buffer.old at (first.now ++ second.now) }
{
    buffers::write(buffer, at, first);
    buffers::write(buffer, at + first.len(), second);
}
