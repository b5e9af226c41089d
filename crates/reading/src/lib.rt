// What every reader of content shares. The definitions are in specs/, their laws in proofs/.
#![tactic(auto)]

pub mod buffers; // total functions on lent buffers: clear, put, get, write
pub mod number; // the numbers that buffers hold
pub mod zeros; // whether a buffer holds zeros alone from a place on
