// Whether tables that anyone hands in are the writing-out of some setup that meets every rule for an identity's channels.
#![tactic(auto)]

pub mod parts; // the counts, and each kind's tables with its count
pub mod sound; // all ten tables
