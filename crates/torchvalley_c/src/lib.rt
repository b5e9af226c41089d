// THE FRONT DOOR for C and Rust: the calls of crate `torchvalley` under their exported names, each with the same clauses. include/torchvalley.h declares them.
#![tactic(auto)]

pub mod codewords;
pub mod floors;
pub mod packet;
pub mod tables;

ghost use Rattle.std.specs.Prelude.{◌≡◌, true, ◌↔◌};
ghost use Rattle.identification.specs.Identification.{identification};
ghost use Rattle.identification.specs.Sound.{Sound};
ghost use Rattle.torchvalley.specs.Answers.{answer_of};

use identification::Identity;
use torchvalley::IdentityAnswer;

// Reads an identification packet, under 01's limits. Any bytes may be handed in.
#[unsafe(no_mangle)]
pub extern "C" fn torchvalley_identification(packet: &[u8]) -> IdentityAnswer
    ensures value { result ≡ answer_of (identification 8 packet.now) }
    ensures sound { (result.refusal ≡ 0) ↔ Sound 8 result.identity }
{
    torchvalley::torchvalley_identification(packet)
}

// Whether an identity is sound: refusals 4 and 14 would not refuse it.
#[unsafe(no_mangle)]
pub extern "C" fn torchvalley_identity_sound(identity: Identity) -> bool
    ensures { (result ≡ true) ↔ Sound 8 identity }
{
    torchvalley::torchvalley_identity_sound(identity)
}
