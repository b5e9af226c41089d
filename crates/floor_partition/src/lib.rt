// Floor type 1 in an audio packet: the values that are read for one partition (004, "packet decode", steps 6 to 18).
#![tactic(auto)]

pub mod partition;
