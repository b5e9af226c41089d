// Whether tables that anyone hands in are the writing-out of codebooks that meet every rule.
#![tactic(auto)]

pub mod row; // a book's row
pub mod judge; // one book against the rules
pub mod clear; // nothing but zeros behind what is written
pub mod recognise; // all books
