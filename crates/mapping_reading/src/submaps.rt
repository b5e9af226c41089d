// The submaps of a mapping, and which of them each channel has.
ghost use Rattle.std.specs.Prelude.{◌+◌, ◌≤◌};
ghost use Rattle.std.proofs.lemmas.List.Edits.{sets};
ghost use Rattle.reading.specs.Lists.{rows};
ghost use Rattle.reading.specs.Reader.{many, mapped, into1};
ghost use Rattle.reading.specs.Inner.Table.{table, put_row};
ghost use Rattle.bits.specs.Inner.Cursors.{position, Wrote};
ghost use Rattle.mapping.specs.Reading.{multiplex, multiplexes, submap};
ghost use Rattle.mapping.specs.Layout.{multiplex_row, submap_row, mapping_width, multiplex_place, submaps_place};

use bits::Cursor;
use bits::refusal::{Reason, Refusal};
use mapping::{Known, MULTIPLEX_PLACE, SUBMAPS_PLACE};

// One channel's submap, which is written at `at` plus one.
#[tactic(auto, using(crate::proofs::Fits::multiplex_fits), unfolding(bits::specs::Inner::Cursors::outcome, bits::specs::Inner::Cursors::stepped, mapping::specs::Reading::multiplex, reading::specs::Reader::into1, reading::specs::Reader::mapped, reading::specs::Inner::Table::put_row, mapping::specs::Layout::multiplex_row))]
pub fn read_multiplex(
    packet: &[u8],
    from: Cursor,
    submaps: u32,
    row: &mut [u8],
    at: usize,
) -> Result<Cursor, Refusal>
    requires { at ≤ mapping_width }
    ensures { Wrote (into1 (put_row multiplex_row) (multiplex submaps packet.now (position from)) (table row.old at))
        result (table row.new (at + 1)) }
{
    let (number, next) = from.field(packet, 4)?;
    if number >= submaps {
        return Err(Refusal {
            reason: Reason::NotSetUp,
            place: from,
        });
    }
    reading::buffers::put(row, at, (number + 1) as u8);
    Ok(next)
}

// Every channel's submap, into its part of the row.
fn read_channels(
    packet: &[u8],
    from: Cursor,
    channels: u32,
    submaps: u32,
    row: &mut [u8],
) -> Result<Cursor, Refusal>
    requires { channels ≤ 255 }
    ensures { Wrote (mapped (λ l. sets row.old multiplex_place (rows multiplex_row l))
        (many (multiplex submaps) channels packet.now (position from)))
        result row.new }
{
    let mut k = from;
    for i in 0..channels {
        k = read_multiplex(packet, k, submaps, row, MULTIPLEX_PLACE + i as usize)?;
    }
    Ok(k)
}

// The multiplex: nothing where there is one submap.
#[tactic(auto, unfolding(bits::specs::Inner::Cursors::outcome, bits::specs::Inner::Cursors::stepped, mapping::specs::Reading::multiplexes, reading::specs::Reader::mapped, reading::specs::Lists::rows))]
pub fn read_multiplexes(
    packet: &[u8],
    from: Cursor,
    channels: u32,
    submaps: u32,
    row: &mut [u8],
) -> Result<Cursor, Refusal>
    requires { channels ≤ 255 }
    ensures { Wrote (mapped (λ l. sets row.old multiplex_place (rows multiplex_row l))
        (multiplexes channels submaps packet.now (position from)))
        result row.new }
{
    if submaps <= 1 {
        return Ok(from);
    }
    read_channels(packet, from, channels, submaps, row)
}

// One submap, its row written at `at`.
#[tactic(auto, using(bits::proofs::Answers::byte_below), unfolding(bits::specs::Inner::Cursors::outcome, bits::specs::Inner::Cursors::stepped, mapping::specs::Reading::submap, reading::specs::Reader::into1, reading::specs::Reader::mapped, reading::specs::Inner::Table::put_row, mapping::specs::Layout::submap_row))]
pub fn read_submap(
    packet: &[u8],
    from: Cursor,
    known: Known,
    row: &mut [u8],
    at: usize,
) -> Result<Cursor, Refusal>
    requires { at ≤ mapping_width }
    ensures { Wrote (into1 (put_row submap_row) (submap known packet.now (position from)) (table row.old at))
        result (table row.new (at + 2)) }
{
    let (_, at_floor) = from.field(packet, 8)?;
    let (floor, at_residue) = at_floor.field(packet, 8)?;
    if floor >= known.floors {
        return Err(Refusal {
            reason: Reason::NotSetUp,
            place: at_floor,
        });
    }
    let (residue, next) = at_residue.field(packet, 8)?;
    if residue >= known.residues {
        return Err(Refusal {
            reason: Reason::NotSetUp,
            place: at_residue,
        });
    }
    reading::buffers::write(row, at, &[floor as u8, residue as u8]);
    Ok(next)
}

// `count` submaps, into their part of the row.
pub fn read_submaps(
    packet: &[u8],
    from: Cursor,
    count: u32,
    known: Known,
    row: &mut [u8],
) -> Result<Cursor, Refusal>
    requires { count ≤ 16 }
    ensures { Wrote (mapped (λ l. sets row.old submaps_place (rows submap_row l))
        (many (submap known) count packet.now (position from)))
        result row.new }
{
    let mut k = from;
    for i in 0..count {
        k = read_submap(packet, k, known, row, SUBMAPS_PLACE + 2 * i as usize)?;
    }
    Ok(k)
}
