// A codebook's lengths in a setup packet, and the codewords that they have.
#![tactic(auto)]

pub mod lengths; // the codeword lengths
pub mod entries; // the lengths with their codewords
