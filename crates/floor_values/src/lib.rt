// Floor type 1 in an audio packet: the values that are read for it (004, "packet decode"; 01, "Audio order" 2).
#![tactic(auto)]

pub mod values;
