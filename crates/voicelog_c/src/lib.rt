// The tool for a C main: crate `voicelog` under its exported name. Standard input and output are granted to the export alone; they take no bytes, so that C
// passes the memory and nothing else.
#![tactic(auto)]

use std::io::{Stdin, Stdout};

// Takes all records of standard input and writes their lines to standard output. It answers 0 where the input was read to its end (also one that ends inside a
// record), 1 where standard output failed, 2 where standard input failed, 3 where there are more records than can be counted. The parameters are those that
// tool/voicelog.c declares: each table comes by itself.
#[unsafe(no_mangle)]
pub extern "C" fn voicelog(
    stdin: Stdin,
    stdout: Stdout,
    counts: &mut [u32; 5],
    books: &mut [u32; 2816],
    lengths: &mut [u8; 16384],
    codewords: &mut [u32; 16384],
    multiplicands: &mut [u16; 16384],
    floors: &mut [u16; 17728],
    residues: &mut [u32; 384],
    plans: &mut [u16; 32768],
    mappings: &mut [u8; 51456],
    modes: &mut [u8; 128],
    curves: &mut [u8; 32768],
    words: &mut [u32; 16384],
    input: &mut [u8; 65536],
    lines: &mut [u8; 65536],
) -> u32 {
    voicelog::voicelog(
        stdin,
        stdout,
        counts,
        books,
        lengths,
        codewords,
        multiplicands,
        floors,
        residues,
        plans,
        mappings,
        modes,
        curves,
        words,
        input,
        lines,
    )
}
