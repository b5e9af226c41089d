// Floor 1: the line rule, and the neighbours of a place, between which a line is drawn, by a search and in order of X (01, "Audio order" 3).
#![tactic(auto)]

pub mod lines;
pub mod neighbours;
pub mod order;
