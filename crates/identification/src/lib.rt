// The identification packet: from any bytes to the stream's identity, or one refusal (003, section 4.2.2; 01).
#![tactic(auto)]

pub mod fields;
pub mod sound;

ghost use Rattle.std.specs.Prelude.{◌≡◌};
ghost use Rattle.identification.specs.Identification.{identification};
ghost use Rattle.identification.specs.Inner.Answers.{identified};
ghost use Rattle.identification.specs.Sound.{AcceptedSound};

use bits::kind::PacketKind;
use bits::refusal::Refusal;
use limits::Limits;

// What the identification packet says of a stream. Laid out for C, since the front door takes and answers it.
#[repr(C)]
#[derive(Clone, Copy)]
pub struct Identity {
    pub channels: u32,
    pub rate: u32,
    pub bitrate_maximum: i32,
    pub bitrate_nominal: i32,
    pub bitrate_minimum: i32,
    pub blocksize0: u32,
    pub blocksize1: u32,
}

// Reads an identification packet. Bits after the framing bit are ignored.
#[tactic(auto, unfolding(crate::specs::Identification::identification, crate::specs::Inner::Answers::identified, crate::specs::Sound::AcceptedSound, bits::specs::Inner::Cursors::outcome, bits::specs::Inner::Cursors::stepped))]
pub fn read(packet: &[u8], limits: Limits) -> Result<Identity, Refusal>
    ensures result_value { identified result ≡ identification limits.channels packet.now }
    ensures accepted_sound { AcceptedSound limits.channels result }
{
    let kind = PacketKind {
        number: PacketKind::IDENTIFICATION,
    };
    let at_stream = header::common_header(packet, kind)?;
    let (stream, at_bitrates) = fields::read_stream(packet, at_stream, limits.channels)?;
    let (bitrates, at_sizes) = fields::read_bitrates(packet, at_bitrates)?;
    let (sizes, at_framing) = fields::read_block_sizes(packet, at_sizes)?;
    let _ = header::framing(packet, at_framing)?;
    Ok(Identity {
        channels: stream.channels,
        rate: stream.rate,
        bitrate_maximum: bitrates.maximum,
        bitrate_nominal: bitrates.nominal,
        bitrate_minimum: bitrates.minimum,
        blocksize0: sizes.first,
        blocksize1: sizes.second,
    })
}
