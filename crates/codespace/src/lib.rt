// Handing out codewords (01, "Bits and books"): each the lowest free one of its length. specs/Ledger.antt says what that means.
#![tactic(auto)]

pub mod space; // a space of codewords, entering one length, and entering a list
