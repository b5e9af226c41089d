// Channels in an audio packet: which are live, which a submap has, and how much of its residue is read for them (01, "Audio order" 4 and 5).
#![tactic(auto)]

pub mod live; // which channels are live
pub mod channels; // how many channels a submap has, and how many live ones
pub mod extent; // how many vectors and partitions a submap's residue has
