// The passes of a residue in an audio packet: partitions, class words, and the cycle of the two (001, "packet decode"; 01, "Audio order" 5).
#![tactic(auto)]

pub mod partition; // partitions, by the class words that stand in the list
pub mod cycle; // pass 0: class words and their groups of partitions

use book_codeword::Codebooks;
use residue::head::Head;

// A residue of a setup as its codewords are read: its number, its fields before the plan, the plans and codebooks of the tables, and how its class words
// are taken apart: `digits` is the dimensions of its class book, `top` what a class word's first digit is divided by.
#[derive(Clone, Copy)]
pub struct Decoder<'a> {
    pub codebooks: Codebooks<'a>,
    pub plans: &'a [u16],
    pub residue: u32,
    pub head: Head,
    pub digits: u32,
    pub top: u32,
}
