// Residues in the tables: whether tables that anyone hands in hold residues that meet every rule.
#![tactic(auto)]

pub mod recognise; // recognising tables that are handed in
