// Floors in the tables: whether a table that anyone hands in holds floors that meet every rule.
#![tactic(auto)]

pub mod below; // numbers below a limit
pub mod classes; // a floor's classes
pub mod recognise; // floors, and the whole table
