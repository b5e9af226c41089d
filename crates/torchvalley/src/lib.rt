// THE FRONT DOOR: the public calls, which crate torchvalley_c exports for C and Rust. Each is a thin function over the crates below; its contract has no
// `requires` and settles the whole answer for every input. include/torchvalley.h declares the exports.
#![tactic(auto)]

pub mod codewords;
pub mod floors;
pub mod packet;
pub mod tables;

ghost use Rattle.std.specs.Prelude.{◌≡◌, true, ◌↔◌};
ghost use Rattle.identification.specs.Identification.{identification};
ghost use Rattle.identification.specs.Sound.{Sound};
ghost use Rattle.torchvalley.specs.Answers.{answer_of, no_identity};

use identification::Identity;
use limits::Limits;

// The ten lists of the tables, as the calls take them: to be read, and to be written. A caller names them here and needs no crate beside this one.
pub use setup::lent::{LentTables, LentTablesMut};

// What an identification packet comes to. No Result: it is laid out for C.
#[repr(C)]
#[derive(Clone, Copy)]
pub struct IdentityAnswer {
    // 0 where the packet is accepted, else 01's number of the refusal.
    pub refusal: u32,
    // All zero on a refusal.
    pub identity: Identity,
}

// Reads an identification packet, under 01's limits. Any bytes may be handed in.
pub fn torchvalley_identification(packet: &[u8]) -> IdentityAnswer
    ensures value { result ≡ answer_of (identification 8 packet.now) }
    ensures sound { (result.refusal ≡ 0) ↔ Sound 8 result.identity }
{
    match identification::read(packet, Limits::standard()) {
        Ok(identity) => IdentityAnswer {
            refusal: 0,
            identity,
        },
        Err(refusal) => IdentityAnswer {
            refusal: refusal.reason.number() as u32,
            identity: no_identity(),
        },
    }
}

// Whether an identity is sound: refusals 4 and 14 would not refuse it.
pub fn torchvalley_identity_sound(identity: Identity) -> bool
    ensures { (result ≡ true) ↔ Sound 8 identity }
{
    identification::sound::is_sound(identity, Limits::standard())
}

fn no_identity() -> Identity
    ensures { result ≡ no_identity }
{
    Identity {
        channels: 0,
        rate: 0,
        bitrate_maximum: 0,
        bitrate_nominal: 0,
        bitrate_minimum: 0,
        blocksize0: 0,
        blocksize1: 0,
    }
}
