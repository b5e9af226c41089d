// Codebooks in a setup packet: their rules, their tables, reading them.
#![tactic(auto)]

pub mod read; // one book, and the section of books
