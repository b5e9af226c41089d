// A codebook's lengths, one for each place of a lent part (002): one by one, each perhaps behind a flag; or ordered, in runs of one length each.
ghost use Rattle.std.specs.Prelude.{◌≡◌, suc, ◌+◌, ◌<◌, ◌≤◌, length};
ghost use Rattle.reading.specs.Reader.{mapped, many};
ghost use Rattle.bits.specs.Field.{field};
ghost use Rattle.bits.specs.Inner.Cursors.{position, outcome, Wrote};
ghost use Rattle.book.specs.LengthsReading.{entry_length, runs, lengths};
ghost use Rattle.book.specs.Inner.LengthsParts.{run_number, unordered, ordered};

use bits::Cursor;
use bits::ilog::ilog;
use bits::refusal::{Reason, Refusal};

// Five bits plus one: 1 to 32.
fn read_used(packet: &[u8], from: Cursor) -> Result<(u32, Cursor), Refusal>
    ensures { outcome result ≡ mapped suc (field 5 packet.now (position from)) }
{
    let (bits, next) = from.field(packet, 5)?;
    Ok((bits + 1, next))
}

// The length of one entry, 0 where it is unused.
fn read_length(packet: &[u8], from: Cursor, sparse: u32) -> Result<(u32, Cursor), Refusal>
    ensures { outcome result ≡ entry_length sparse packet.now (position from) }
{
    if sparse == 0 {
        return read_used(packet, from);
    }
    let (flag, next) = from.field(packet, 1)?;
    if flag == 0 {
        return Ok((0, next));
    }
    read_used(packet, next)
}

// The lengths of all entries, one by one.
fn read_each(packet: &[u8], from: Cursor, sparse: u32, part: &mut [u8]) -> Result<Cursor, Refusal>
    ensures { Wrote (many (entry_length sparse) (length part.old) packet.now (position from)) result part.new }
{
    let mut at = from;
    for entry in part.iter_mut() {
        let (bits, next) = read_length(packet, at, sparse)?;
        *entry = bits as u8;
        at = next;
    }
    Ok(at)
}

// How many entries the next run has, of those that are left.
fn read_run(packet: &[u8], from: Cursor, left: u32) -> Result<(u32, Cursor), Refusal>
    ensures { outcome result ≡ run_number left packet.now (position from) }
{
    let (number, next) = from.field(packet, ilog(left))?;
    if left < number {
        return Err(Refusal {
            reason: Reason::Codebook,
            place: from,
        });
    }
    Ok((number, next))
}

// Runs of one length each, from `first` + 1 on. `place` is the book's first bit, where a length above 32 has its refusal.
fn read_runs(
    packet: &[u8],
    from: Cursor,
    place: Cursor,
    first: u32,
    part: &mut [u8],
) -> Result<Cursor, Refusal>
    requires { (first < 32) × (length part.old < 4294967296) }
    ensures { Wrote (runs (position place) 33 (first + 1) (length part.old) packet.now (position from)) result
        part.new }
{
    let mut at = from;
    let mut bits = first + 1;
    let mut entry = 0;
    // A turn passes a whole run, however long, and not one entry: there is no range to count by.
    while entry < part.len() {
        if 32 < bits {
            return Err(Refusal {
                reason: Reason::Codebook,
                place,
            });
        }
        let (number, next) = read_run(packet, at, (part.len() - entry) as u32)?;
        let end = entry + number as usize;
        part[entry..end].fill(bits as u8);
        entry = end;
        bits += 1;
        at = next;
    }
    Ok(at)
}

// The sparse flag, and the lengths one by one.
fn read_unordered(packet: &[u8], from: Cursor, part: &mut [u8]) -> Result<Cursor, Refusal>
    ensures { Wrote (unordered (length part.old) packet.now (position from)) result part.new }
{
    let (sparse, next) = from.field(packet, 1)?;
    read_each(packet, next, sparse, part)
}

// The first length, and the runs.
fn read_ordered(
    packet: &[u8],
    from: Cursor,
    place: Cursor,
    part: &mut [u8],
) -> Result<Cursor, Refusal>
    requires { length part.old < 4294967296 }
    ensures { Wrote (ordered (position place) (length part.old) packet.now (position from)) result part.new }
{
    let (first, next) = from.field(packet, 5)?;
    read_runs(packet, next, place, first, part)
}

// The lengths of all entries. `place` is the book's first bit.
pub fn read_lengths(
    packet: &[u8],
    from: Cursor,
    place: Cursor,
    part: &mut [u8],
) -> Result<Cursor, Refusal>
    requires { length part.old < 4294967296 }
    ensures { Wrote (lengths (position place) (length part.old) packet.now (position from)) result part.new }
{
    let (ordered, next) = from.field(packet, 1)?;
    if ordered == 0 {
        return read_unordered(packet, next, part);
    }
    read_ordered(packet, next, place, part)
}
