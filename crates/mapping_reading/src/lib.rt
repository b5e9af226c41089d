// Reading mappings into their table (003, section 4.2.4, "Mappings"; 01, refusals 9 and 11).
// Each field is judged as soon as it is read; a refusal says nothing of the buffer, which the outermost function clears.
#![tactic(auto)]

pub mod counts; // how many submaps and coupling steps
pub mod couplings; // the coupling steps, into their part of a mapping's row
pub mod submaps; // each channel's submap, and the submaps, into theirs

ghost use Rattle.std.specs.Prelude.{◌+◌, ◌*◌, ◌/◌, ◌%◌, ◌≤◌, ◌≡◌, set, replicate};
ghost use Rattle.reading.specs.Reader.{many, mapped, into, into1};
ghost use Rattle.reading.specs.Inner.Table.{table, put_row};
ghost use Rattle.bits.specs.Inner.Cursors.{position, Wrote};
ghost use Rattle.mapping.specs.Reading.{parts, mapping};
ghost use Rattle.mapping.specs.Layout.{mapping_row, parts_into, mapping_width, mappings_need};

use bits::Cursor;
use bits::refusal::{Reason, Refusal};
use mapping::{Known, MAPPING_WIDTH};

// What follows a mapping's counts, into a row in which those stand.
#[tactic(auto, unfolding(bits::specs::Inner::Cursors::outcome, bits::specs::Inner::Cursors::stepped, mapping::specs::Reading::parts, reading::specs::Reader::mapped, mapping::specs::Layout::parts_into))]
fn read_parts(
    packet: &[u8],
    from: Cursor,
    known: Known,
    submaps: u32,
    steps: u32,
    row: &mut [u8],
) -> Result<Cursor, Refusal>
    requires { (1 ≤ known.channels) × (known.channels ≤ 255) × (submaps ≤ 16) × (steps ≤ 256) }
    ensures { Wrote (mapped (parts_into row.old) (parts known submaps steps packet.now (position from)))
        result row.new }
{
    let at_reserved = crate::couplings::read_couplings(packet, from, steps, known.channels, row)?;
    let (reserved, at_multiplex) = at_reserved.field(packet, 2)?;
    if reserved != 0 {
        return Err(Refusal {
            reason: Reason::NotZero,
            place: at_reserved,
        });
    }
    let at_submaps = crate::submaps::read_multiplexes(
        packet,
        at_multiplex,
        known.channels,
        submaps,
        row,
    )?;
    crate::submaps::read_submaps(packet, at_submaps, submaps, known, row)
}

// A row in which a mapping's counts stand, and zeros behind them.
fn counted(submaps: u32, steps: u32) -> [u8; MAPPING_WIDTH]
    requires { (submaps ≤ 16) × (steps ≤ 256) }
    ensures { result ≡ set (set (set (replicate mapping_width 0) 0 (steps % 256)) 1 (steps / 256)) 2 submaps }
{
    let mut row = [0u8; MAPPING_WIDTH];
    row[0] = (steps % 256) as u8;
    row[1] = (steps / 256) as u8;
    row[2] = submaps as u8;
    row
}

// A mapping whose counts were read, its row written at `at`.
#[tactic(auto, unfolding(bits::specs::Inner::Cursors::outcome, bits::specs::Inner::Cursors::stepped, reading::specs::Reader::into1, reading::specs::Reader::mapped))]
fn read_row(
    packet: &[u8],
    from: Cursor,
    known: Known,
    submaps: u32,
    steps: u32,
    mappings: &mut [u8],
    at: usize,
) -> Result<Cursor, Refusal>
    requires { (1 ≤ known.channels) × (known.channels ≤ 255) × (submaps ≤ 16) × (steps ≤ 256) × (at ≤ mappings_need) }
    ensures { Wrote (into1 (put_row mapping_row) (parts known submaps steps packet.now (position from)) (table mappings.old at))
        result (table mappings.new (at + mapping_width)) }
{
    let mut row = counted(submaps, steps);
    let next = read_parts(packet, from, known, submaps, steps, &mut row)?;
    reading::buffers::write(mappings, at, &row);
    Ok(next)
}

// One mapping, its row written at `at`.
#[tactic(auto, using(crate::proofs::Fits::counts_few), unfolding(bits::specs::Inner::Cursors::outcome, bits::specs::Inner::Cursors::stepped, mapping::specs::Reading::mapping, reading::specs::Reader::into1, reading::specs::Reader::mapped))]
pub fn read_mapping(
    packet: &[u8],
    from: Cursor,
    known: Known,
    mappings: &mut [u8],
    at: usize,
) -> Result<Cursor, Refusal>
    requires { (1 ≤ known.channels) × (known.channels ≤ 255) × (at ≤ mappings_need) }
    ensures { Wrote (into1 (put_row mapping_row) (mapping known packet.now (position from)) (table mappings.old at))
        result (table mappings.new (at + mapping_width)) }
{
    let (kind, at_submaps) = from.field(packet, 16)?;
    if kind != 0 {
        return Err(Refusal {
            reason: Reason::NotZero,
            place: from,
        });
    }
    let (submaps, at_steps) = counts::read_submap_count(packet, at_submaps)?;
    let (steps, at_parts) = counts::read_coupling_count(packet, at_steps)?;
    read_row(packet, at_parts, known, submaps, steps, mappings, at)
}

// `count` mappings, their rows from the front of the buffer.
pub fn read_mappings(
    packet: &[u8],
    from: Cursor,
    count: usize,
    known: Known,
    mappings: &mut [u8],
) -> Result<Cursor, Refusal>
    requires { (1 ≤ known.channels) × (known.channels ≤ 255) × (count ≤ 64) }
    ensures { Wrote (into (put_row mapping_row) (many (mapping known) count packet.now (position from)) (table mappings.old 0))
        result (table mappings.new (mapping_width * count)) }
{
    let mut k = from;
    for i in 0..count {
        k = read_mapping(packet, k, known, mappings, MAPPING_WIDTH * i)?;
    }
    Ok(k)
}
