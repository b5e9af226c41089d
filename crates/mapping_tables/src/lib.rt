// Mappings in the tables: whether a table that anyone hands in holds mappings that meet every rule.
#![tactic(auto)]

pub mod recognise; // recognising a table that is handed in
