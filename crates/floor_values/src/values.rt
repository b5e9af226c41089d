// The values of a floor (004, "packet decode").
ghost use Rattle.std.specs.Prelude.{◌≡◌, ◌<◌};
ghost use Rattle.std.proofs.lemmas.List.Edits.{sets};
ghost use Rattle.reading.specs.Counted.{Counted};
ghost use Rattle.reading.specs.Lists.{rows};
ghost use Rattle.reading.specs.Reader.{many, each, mapped, into};
ghost use Rattle.reading.specs.Inner.Table.{table, put_row};
ghost use Rattle.bits.specs.Field.{field};
ghost use Rattle.bits.specs.Inner.Cursors.{position, outcome, Wrote};
ghost use Rattle.numbers.specs.Inner.Cell.{cell};
ghost use Rattle.floor_partition.specs.Partition.{whole};
ghost use Rattle.book_codeword.specs.Inner.Stored.{lengths_in};
ghost use Rattle.floor_values.specs.Values.{first_bits, partition_of, used_values, floor_values, with_values, answered_values};
ghost use Rattle.floor_values.specs.Inner.Stored.{floor_in, FloorStored};
ghost use Rattle.floor_values.specs.Claims.{FloorValues};

use bits::Cursor;
use bits::refusal::Refusal;
use book_codeword::Codebooks;
use floor_partition::partition;
use floor_row::FloorRow;

// The first two values, into the first two places of the list.
fn read_first_two(
    packet: &[u8],
    from: Cursor,
    row: FloorRow,
    values: &mut [u16],
) -> Result<Cursor, Refusal>
    requires { Counted 4 (floor_in row.floors.now row.number).multiplier }
    ensures { Wrote (into (put_row cell)
        (many (field (first_bits (floor_in row.entry.floors.now row.entry.number).multiplier)) 2 packet.now (position from))
        (table values.old 0)) result (table values.new 2) }
{
    let range = floor_points::range_of(row.multiplier() as u8);
    let width = bits::ilog::ilog(range - 1);
    numbers::read_numbers(packet, from, width, 2, values, 0)
}

// The values of the partitions, one after the other, into the list from place 2 on.
fn read_partitions(
    packet: &[u8],
    from: Cursor,
    row: FloorRow,
    codebooks: Codebooks,
    values: &mut [u16],
) -> Result<Cursor, Refusal>
    requires { FloorStored row.floors.now codebooks.books.now codebooks.lengths.now codebooks.codewords.now row.number }
    ensures { Wrote (mapped (λ l. sets values.old 2 (rows whole l))
        (each (partition_of (lengths_in codebooks.entry.books.now codebooks.entry.lengths.now) (floor_in row.entry.floors.now row.entry.number))
        (floor_in row.entry.floors.now row.entry.number).partitions packet.now (position from))) result values.new }
{
    let count = row.partition_count() as usize;
    let mut next = from;
    let mut at: usize = 2;
    for i in 0..count {
        let class = row.partition_class(i) as usize;
        next = partition::read_partition(packet, next, row, class, codebooks, values, at)?;
        at += row.class_dimensions(class) as usize;
    }
    Ok(next)
}

// The values of a floor that is used, into the list from its front on.
fn read_used(
    packet: &[u8],
    from: Cursor,
    row: FloorRow,
    codebooks: Codebooks,
    values: &mut [u16],
) -> Result<Cursor, Refusal>
    requires { FloorStored row.floors.now codebooks.books.now codebooks.lengths.now codebooks.codewords.now row.number }
    ensures { Wrote (mapped (sets values.old 0)
        (used_values (lengths_in codebooks.entry.books.now codebooks.entry.lengths.now) (floor_in row.entry.floors.now row.entry.number)
        packet.now (position from))) result values.new }
{
    let next = read_first_two(packet, from, row, values)?;
    read_partitions(packet, next, row, codebooks, values)
}

// Whether the floor is used, and its values into the list from its front on; the packet says that a floor is unused, and then nothing is written.
// On a refusal, which is the cut, the list means nothing.
pub fn read_values(
    packet: &[u8],
    from: Cursor,
    row: FloorRow,
    codebooks: Codebooks,
    values: &mut [u16],
) -> Result<(bool, Cursor), Refusal>
    requires { FloorStored row.floors.now codebooks.books.now codebooks.lengths.now codebooks.codewords.now row.number }
    ensures wrote { mapped (with_values values.new) (outcome result) ≡ mapped (answered_values values.old)
        (floor_values (lengths_in codebooks.entry.books.now codebooks.entry.lengths.now) (floor_in row.entry.floors.now row.entry.number)
        packet.now (position from)) }
    ensures floor_values { FloorValues (lengths_in codebooks.entry.books.now codebooks.entry.lengths.now) (floor_in row.entry.floors.now row.entry.number) }
{
    let (nonzero, next) = from.bit(packet)?;
    if nonzero == 0 {
        return Ok((false, next));
    }
    let after = read_used(packet, next, row, codebooks, values)?;
    Ok((true, after))
}
