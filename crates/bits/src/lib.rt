// A packet as bits: a position in it, and the fields that are read there (000, section 2).
// A field is read by whole bytes and settled once for every width; a cut field leaves no position from which to read on.
#![tactic(auto)]

pub mod ilog;
pub mod kind;
pub mod refusal;

ghost use Rattle.std.specs.Prelude.{◌≡◌, ◌+◌, ◌*◌, ◌%◌, ◌^◌, ◌≤◌, length};
ghost use Rattle.bits.specs.Field.{value_at, field};
ghost use Rattle.bits.specs.Inner.Cursors.{position, outcome};
ghost use Rattle.bits.specs.Signed.{signed};

use refusal::{Reason, Refusal};

// A position in a packet: bit `bit` of byte `byte`. A slice may have 2^63 - 1 bytes, so a count of bits would not fit 64 bits;
// byte and bit apart always do. Any two numbers are a position: bit may pass 7. The packet is not in it, and goes beside it everywhere: of a cursor with its
// packet each contract would have to say that the packet stays the same.
#[derive(Clone, Copy)]
pub struct Cursor {
    pub byte: usize,
    pub bit: u8,
}

impl Cursor {
    // The first bit of a packet.
    pub fn start() -> Self
        ensures { position result ≡ 0 }
    {
        Cursor { byte: 0, bit: 0 }
    }

    // The field of `width` bits at the cursor.
    pub fn field(self, packet: &[u8], width: usize) -> Result<(u32, Cursor), Refusal>
        requires { width ≤ 32 }
        ensures { outcome result ≡ field width packet.now (position self) }
    {
        let byte = self.byte;
        let bit = self.bit as usize;
        if packet.len() < byte {
            return Err(Refusal {
                reason: Reason::Cut,
                place: self,
            });
        }
        let end = bit + width;
        if packet.len() - byte < (end + 7) / 8 {
            return Err(Refusal {
                reason: Reason::Cut,
                place: self,
            });
        }
        let offset = bit % 8;
        let bytes = whole_bytes(packet, byte + bit / 8, (offset + width + 7) / 8);
        let next = Cursor {
            byte: byte + end / 8,
            bit: (end % 8) as u8,
        };
        Ok((low_bits(bytes >> offset, width), next))
    }

    // The bit at the cursor: the field of one bit.
    pub fn bit(self, packet: &[u8]) -> Result<(u32, Cursor), Refusal>
        ensures { outcome result ≡ field 1 packet.now (position self) }
    {
        self.field(packet, 1)
    }
}

// The number that `count` bytes from `first` on make, the first of them lowest.
fn whole_bytes(packet: &[u8], first: usize, count: usize) -> u64
    requires { (count ≤ 5) × (first + count ≤ length packet.now) }
    ensures { result ≡ value_at packet.now (8 * first) (8 * count) }
{
    let mut number: u64 = 0;
    for i in 0..count {
        number += (packet[first + i] as u64) << (8 * i);
    }
    number
}

// The low bits of a number.
fn low_bits(x: u64, width: usize) -> u32
    requires { width ≤ 32 }
    ensures { result ≡ x % 2 ^ width }
{
    (x & ((1u64 << width) - 1)) as u32
}

// A field of 32 bits as a signed number, in two's complement (000, section 2.1).
pub fn signed(v: u32) -> i32
    ensures { result ≡ signed v }
{
    v.cast_signed()
}
