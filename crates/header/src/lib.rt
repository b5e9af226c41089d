// What opens and closes every header packet: the type byte with the name, and the framing bit (003, section 4.2.1; 01).
#![tactic(auto)]

ghost use Rattle.std.specs.Prelude.{◌≡◌};
ghost use Rattle.bits.specs.Inner.Cursors.{position, outcome, stepped};
ghost use Rattle.header.specs.Header.{common_header, framing};

use bits::Cursor;
use bits::kind::PacketKind;
use bits::refusal::{Reason, Refusal};

// The type byte and the six bytes "vorbis", each judged as soon as it is read.
pub fn common_header(packet: &[u8], kind: PacketKind) -> Result<Cursor, Refusal>
    ensures { stepped result ≡ common_header kind.number packet.now }
{
    let expected = [kind.number, 0x76, 0x6F, 0x72, 0x62, 0x69, 0x73];
    let mut at = Cursor::start();
    for i in 0..7 {
        let (byte, next) = at.field(packet, 8)?;
        if byte != expected[i] as u32 {
            return Err(Refusal {
                reason: Reason::Header,
                place: at,
            });
        }
        at = next;
    }
    Ok(at)
}

// The framing bit, which must be set.
pub fn framing(packet: &[u8], from: Cursor) -> Result<(u32, Cursor), Refusal>
    ensures { outcome result ≡ framing packet.now (position from) }
{
    let (flag, next) = from.bit(packet)?;
    if flag == 0 {
        return Err(Refusal {
            reason: Reason::Framing,
            place: from,
        });
    }
    Ok((flag, next))
}
