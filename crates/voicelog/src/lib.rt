// THE TOOL: reads records from standard input and writes a line for each, in memory that is lent (01, the tool).
#![tactic(auto)]

pub mod running;

use setup::lent::LentTablesMut;
use std::io::{Stdin, Stdout};

// Takes all records of standard input and writes their lines to standard output. It answers 0 where the input was read to its end (also one that ends inside a
// record), 1 where standard output failed, 2 where standard input failed, 3 where there are more records than can be counted. No contract can say what is read
// or written: what stands for it are the contracts of `record_progress` and `record_taking`, by which the lines of whatever was read are those of `report`.
// The ten tables come one by one and the status goes as a number, as tool/voicelog.c has them.
pub fn voicelog(
    stdin: Stdin,
    stdout: Stdout,
    counts: &mut [u32; 5],
    books: &mut [u32; 2816],
    lengths: &mut [u8; 16384],
    codewords: &mut [u32; 16384],
    multiplicands: &mut [u16; 16384],
    floors: &mut [u16; 17728],
    residues: &mut [u32; 384],
    plans: &mut [u16; 32768],
    mappings: &mut [u8; 51456],
    modes: &mut [u8; 128],
    curves: &mut [u8; 32768],
    words: &mut [u32; 16384],
    input: &mut [u8; 65536],
    lines: &mut [u8; 65536],
) -> u32 {
    let mut tables = LentTablesMut {
        counts,
        books,
        lengths,
        codewords,
        multiplicands,
        floors,
        residues,
        plans,
        mappings,
        modes,
    };
    let status = running::run(stdin, stdout, &mut tables, curves, words, input, lines);
    status as u32
}
