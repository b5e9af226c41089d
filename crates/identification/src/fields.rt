// The fields of the identification packet, in three groups, each field judged as soon as it is read (003, section 4.2.2).
ghost use Rattle.std.specs.Prelude.{◌≡◌};
ghost use Rattle.bits.specs.Inner.Cursors.{position, outcome};
ghost use Rattle.identification.specs.Identification.{stream, bitrates, block_size, block_sizes};

use bits::Cursor;
use bits::refusal::{Reason, Refusal};

#[derive(Clone, Copy)]
pub struct Stream {
    pub channels: u32,
    pub rate: u32,
}

#[derive(Clone, Copy)]
pub struct Bitrates {
    pub maximum: i32,
    pub nominal: i32,
    pub minimum: i32,
}

#[derive(Clone, Copy)]
pub struct BlockSizes {
    pub first: u32,
    pub second: u32,
}

// Version, channels, rate.
#[tactic(auto, unfolding(bits::specs::Inner::Cursors::outcome, crate::specs::Identification::stream))]
pub fn read_stream(
    packet: &[u8],
    from: Cursor,
    most_channels: u32,
) -> Result<(Stream, Cursor), Refusal>
    ensures { outcome result ≡ stream most_channels packet.now (position from) }
{
    let (version, at_channels) = from.field(packet, 32)?;
    if version != 0 {
        return Err(Refusal {
            reason: Reason::Version,
            place: from,
        });
    }
    let (channels, at_rate) = at_channels.field(packet, 8)?;
    if channels == 0 {
        return Err(Refusal {
            reason: Reason::Identity,
            place: at_channels,
        });
    }
    if most_channels < channels {
        return Err(Refusal {
            reason: Reason::Limit,
            place: at_channels,
        });
    }
    let (rate, next) = at_rate.field(packet, 32)?;
    if rate == 0 {
        return Err(Refusal {
            reason: Reason::Identity,
            place: at_rate,
        });
    }
    Ok((Stream { channels, rate }, next))
}

// The three bitrates, which are not judged.
#[tactic(auto, unfolding(bits::specs::Inner::Cursors::outcome, crate::specs::Identification::bitrates))]
pub fn read_bitrates(packet: &[u8], from: Cursor) -> Result<(Bitrates, Cursor), Refusal>
    ensures { outcome result ≡ bitrates packet.now (position from) }
{
    let (maximum, at_nominal) = from.field(packet, 32)?;
    let (nominal, at_minimum) = at_nominal.field(packet, 32)?;
    let (minimum, next) = at_minimum.field(packet, 32)?;
    let rates = Bitrates {
        maximum: bits::signed(maximum),
        nominal: bits::signed(nominal),
        minimum: bits::signed(minimum),
    };
    Ok((rates, next))
}

// One block size, which the packet gives by its exponent.
#[tactic(auto, using(crate::proofs::SizeLaws::size_laws), unfolding(bits::specs::Inner::Cursors::outcome, crate::specs::Identification::block_size, reading::specs::Reader::mapped))]
pub fn read_block_size(packet: &[u8], from: Cursor) -> Result<(u32, Cursor), Refusal>
    ensures { outcome result ≡ block_size packet.now (position from) }
{
    let (exponent, next) = from.field(packet, 4)?;
    if exponent < 6 || 13 < exponent {
        return Err(Refusal {
            reason: Reason::Identity,
            place: from,
        });
    }
    Ok((1 << exponent, next))
}

// Both block sizes, the first not above the second.
#[tactic(auto, unfolding(bits::specs::Inner::Cursors::outcome, crate::specs::Identification::block_sizes))]
pub fn read_block_sizes(packet: &[u8], from: Cursor) -> Result<(BlockSizes, Cursor), Refusal>
    ensures { outcome result ≡ block_sizes packet.now (position from) }
{
    let (first, at_second) = read_block_size(packet, from)?;
    let (second, next) = read_block_size(packet, at_second)?;
    if second < first {
        return Err(Refusal {
            reason: Reason::Identity,
            place: at_second,
        });
    }
    Ok((BlockSizes { first, second }, next))
}
