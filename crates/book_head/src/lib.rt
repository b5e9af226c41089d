// The fields before a codebook's lengths in a setup packet.
#![tactic(auto)]

pub mod head; // pattern, dimensions, entries
