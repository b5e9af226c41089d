// The codewords of a book (01, "Bits and books"; refusals 7 and 8): which each entry gets, and whether its lengths are accepted.
#![tactic(auto)]

pub mod book; // the codewords of a whole book
