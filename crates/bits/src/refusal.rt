// Why a packet is sent back (01, "When the packet is sent back").
ghost use Rattle.std.specs.Prelude.{◌≡◌};
ghost use Rattle.bits.specs.Reasons.{number};

use crate::Cursor;

// 01's reasons. Each has 01's number, which is what a caller of the front door gets.
#[derive(Clone, Copy, Debug, PartialEq, Eq)]
pub enum Reason {
    // A bit that is needed lies past the end.
    Cut = 1,
    // The type byte, or the name behind it.
    Header = 2,
    Version = 3,
    // Channels, rate, or a block size.
    Identity = 4,
    Framing = 5,
    // A codebook's pattern, dimensions, number of entries, ordered lengths, or lookup type.
    Codebook = 6,
    // More code space is asked for than is free.
    Overspecified = 7,
    // Code space is left over.
    Underspecified = 8,
    // What must be zero is not: a time value, a mapping's type, a reserved field, a window or transform type.
    NotZero = 9,
    // The type of a floor or a residue.
    UnknownType = 10,
    // A codebook, floor, residue, mapping, submap or channel that is named is not there, or a channel is coupled with itself.
    NotSetUp = 11,
    // A floor's X list.
    XList = 12,
    // A residue's extent, classifications or plan.
    Residue = 13,
    // One of the limits.
    Limit = 14,
    // Handed in as audio, and no audio packet.
    NotAudio = 15,
    // A mode that is not set up.
    Mode = 16,
    // A lent buffer is too small.
    Room = 17,
    // The identity, the tables or the tally handed in are not sound.
    Unsound = 18,
    // The stream would have more samples than can be counted.
    Samples = 19,
}

// A packet is sent back: why, and where the judged field begins.
#[derive(Clone, Copy)]
pub struct Refusal {
    pub reason: Reason,
    pub place: Cursor,
}

impl Reason {
    // 01's number.
    pub fn number(self) -> u8
        ensures { result ≡ number self }
    {
        self as u8
    }
}
