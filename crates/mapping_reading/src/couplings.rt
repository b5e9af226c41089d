// The coupling steps of a mapping.
ghost use Rattle.std.specs.Prelude.{◌+◌, ◌≤◌, ◌≡◌};
ghost use Rattle.std.proofs.lemmas.List.Edits.{sets};
ghost use Rattle.reading.specs.Lists.{rows};
ghost use Rattle.reading.specs.Reader.{many, mapped, into1};
ghost use Rattle.reading.specs.Inner.Table.{table, put_row};
ghost use Rattle.bits.specs.Inner.Cursors.{position, outcome, Wrote};
ghost use Rattle.mapping.specs.Reading.{channel, coupling};
ghost use Rattle.mapping.specs.Layout.{coupling_row, mapping_width, couplings_place};

use bits::Cursor;
use bits::refusal::{Reason, Refusal};
use mapping::COUPLINGS_PLACE;

// A channel's number, in as many bits as the greatest one has.
#[tactic(auto, using(crate::proofs::Fits::width_fits), unfolding(bits::specs::Inner::Cursors::outcome, mapping::specs::Reading::channel))]
pub fn read_channel(packet: &[u8], from: Cursor, channels: u32) -> Result<(u32, Cursor), Refusal>
    requires { 1 ≤ channels }
    ensures { outcome result ≡ channel channels packet.now (position from) }
{
    let width = bits::ilog::ilog(channels - 1);
    let (number, next) = from.field(packet, width)?;
    if number >= channels {
        return Err(Refusal {
            reason: Reason::NotSetUp,
            place: from,
        });
    }
    Ok((number, next))
}

// One coupling step, its row written at `at`.
#[tactic(auto, using(crate::proofs::Fits::channel_fits), unfolding(bits::specs::Inner::Cursors::outcome, bits::specs::Inner::Cursors::stepped, mapping::specs::Reading::coupling, reading::specs::Reader::into1, reading::specs::Reader::mapped, reading::specs::Inner::Table::put_row, mapping::specs::Layout::coupling_row))]
pub fn read_coupling(
    packet: &[u8],
    from: Cursor,
    channels: u32,
    row: &mut [u8],
    at: usize,
) -> Result<Cursor, Refusal>
    requires { (1 ≤ channels) × (channels ≤ 255) × (at ≤ mapping_width) }
    ensures { Wrote (into1 (put_row coupling_row) (coupling channels packet.now (position from)) (table row.old at))
        result (table row.new (at + 2)) }
{
    let (magnitude, at_angle) = read_channel(packet, from, channels)?;
    let (angle, next) = read_channel(packet, at_angle, channels)?;
    if angle == magnitude {
        return Err(Refusal {
            reason: Reason::NotSetUp,
            place: at_angle,
        });
    }
    reading::buffers::write(row, at, &[magnitude as u8, angle as u8]);
    Ok(next)
}

// `count` coupling steps, into their part of the row. The loops of `submaps` are alike and stay apart: a reader handed in would need a contract that is
// longer than the loop, and what they share is proved once (proofs/Fillings.antt).
pub fn read_couplings(
    packet: &[u8],
    from: Cursor,
    count: u32,
    channels: u32,
    row: &mut [u8],
) -> Result<Cursor, Refusal>
    requires { (1 ≤ channels) × (channels ≤ 255) × (count ≤ 256) }
    ensures { Wrote (mapped (λ l. sets row.old couplings_place (rows coupling_row l))
        (many (coupling channels) count packet.now (position from)))
        result row.new }
{
    let mut k = from;
    for i in 0..count {
        k = read_coupling(packet, k, channels, row, COUPLINGS_PLACE + 2 * i as usize)?;
    }
    Ok(k)
}
