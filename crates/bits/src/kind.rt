// The kinds of header packet.

// A header packet's kind, by the number in its first byte (003, section 4.2.1). An audio packet has no such byte: it starts with a 0 bit.
// A number, not an enum: `common_header` answers for each of them, and an enum would ask more of callers.
#[derive(Clone, Copy)]
pub struct PacketKind {
    pub number: u8,
}

impl PacketKind {
    pub const IDENTIFICATION: u8 = 1;

    pub const COMMENT: u8 = 3;

    pub const SETUP: u8 = 5;
}
