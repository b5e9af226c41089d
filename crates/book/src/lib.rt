// Codebooks: what one is, its rules, how it is read, its row and its lists in the tables. Definitions and laws; how many numbers a row has, the fixed need
// of the table, and what reading answers of a book's head and of its lookup.
#![tactic(auto)]

pub const WIDTH: usize = 11;

pub const NEED: usize = 256 * WIDTH;

// What the fields before a book's lengths say (002).
#[derive(Clone, Copy)]
pub struct Head {
    pub dimensions: u32,
    pub entries: u32,
}

// The four numbers of a lookup that has multiplicands (002): the least value and the step, each as its 32-bit word, the bits of a multiplicand, and whether
// values run on from the last.
#[derive(Clone, Copy)]
pub struct Parameters {
    pub minimum: u32,
    pub delta: u32,
    pub width: u32,
    pub sequence: u32,
}
