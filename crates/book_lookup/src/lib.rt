// A codebook's lookup in a setup packet.
#![tactic(auto)]

pub mod root; // how many multiplicands a lookup of type 1 has
pub mod lookup; // the lookup and its multiplicands
