// The records of the tool's input (01, the tool): where one begins and ends, of which kind it is, and what it can come to.
#![tactic(auto)]

ghost use Rattle.std.specs.Prelude.{◌≡◌};
ghost use Rattle.records.specs.Records as records;
ghost use Rattle.records.specs.Inner.Fronts.{front};

use identification::Identity;
use reading::buffers::get;

// What stands at the front of the bytes that were read so far.
#[derive(Clone, Copy)]
pub enum Front {
    // Less than a record.
    Partial,
    // The head of a record whose body is too long, and how many bytes that has.
    TooLong(usize),
    // A record: its kind, and how many bytes its body has. The kind stays a number: any may stand there, and what is of no kind is a record too.
    Whole(u32, usize),
}

// What a record came to.
#[derive(Clone, Copy)]
pub enum Answer {
    // An identification packet that was accepted.
    Identified(Identity),
    // A setup packet that was accepted: its books and its modes.
    SetUp(u32, u32),
    // An audio packet that was accepted: its block size, the samples that it finished, its codewords.
    AudioRead(u32, u64, u64),
    // The refusal's number as it is printed, which may be any: a number, and not one of `bits`'s reasons.
    Refused(u32),
    Unknown,
    TooLong,
}

// Looks at the front of `input`, the bytes from a record on.
#[tactic(auto, unfolding(crate::specs::Inner::Fronts::front, crate::specs::Records::is_too_long))]
pub fn look(input: &[u8]) -> Front
    ensures { result ≡ front input.now }
{
    if input.len() < 6 {
        return Front::Partial;
    }
    let length = body_length(input);
    if length > 49152 {
        return Front::TooLong(length);
    }
    if input.len() - 6 < length {
        return Front::Partial;
    }
    Front::Whole(kind(input), length)
}

// The body's length: four bytes, low byte first.
#[tactic(auto, unfolding(crate::specs::Records::body_length))]
fn body_length(input: &[u8]) -> usize
    ensures { result ≡ records.body_length input.now }
{
    u32::from_le_bytes([get(input, 0), get(input, 1), get(input, 2), get(input, 3)]) as usize
}

// The record's kind: two bytes, low byte first.
#[tactic(auto, unfolding(crate::specs::Records::kind))]
fn kind(input: &[u8]) -> u32
    ensures { result ≡ records.kind input.now }
{
    u16::from_le_bytes([get(input, 4), get(input, 5)]) as u32
}
