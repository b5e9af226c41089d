// All codewords of a residue in an audio packet: pass 0, then the later passes, whose classes are found again in the list of codewords (001, "packet decode";
// 01, "Audio order" 5).
#![tactic(auto)]

pub mod first;
pub mod last;
pub mod later;
pub mod whole;
