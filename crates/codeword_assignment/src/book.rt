// The codewords of a book (01, "Bits and books"; refusals 7 and 8): the lengths of its used entries, entered in entry order into an empty space of
// their own. specs/Book.antt says by the ledger what each entry gets and when the lengths are accepted.
ghost use Rattle.std.specs.Prelude.{◌≡◌, IsOk, true, cond, ◌↔◌, ◌<◌, ◌≤◌, eqb};
ghost use lib.ListN.{length, take, replicate};
ghost use Rattle.reading.specs.Pad.{pad};
ghost use Rattle.codespace.specs.Inner.Blocks.{enter_answer, enter_blocks};
ghost use Rattle.codespace.specs.Answers.{number};
ghost use Rattle.codeword_assignment.specs.Book.{used, is_lone, verdict, assigned, written, ledger_codewords, Decodable, NextUsed, Coded};

use codespace::space::{VACANT, empty_space, enter, is_full};
use reading::buffers::clear;

// Why lengths get no codewords.
#[derive(Clone, Copy, Debug, PartialEq, Eq)]
pub enum Unassigned {
    // Refusal 7, with the entry: its share exceeds the free space.
    Overspecified(usize),
    // Refusal 8: space is left over.
    Underspecified,
    // Refusal 17: the lent list has fewer places than there are entries.
    TooShort,
}

// Assigns each used entry its codeword, and 0 to the unused ones; places behind them are 0. The lengths are accepted where no space is left over, or the
// only used entry has length 1. On any refusal the lent list is all zeros.
pub fn assign_codewords(lengths: &[u8], codewords: &mut [u32]) -> Result<(), Unassigned>
    ensures value { (result ≡ assigned lengths.now (length codewords.old))
        × (codewords.new ≡ written result lengths.now (length codewords.old)) }
    ensures decodable { IsOk result → Decodable lengths.now (take (length lengths.now) codewords.new) }
{
    clear(codewords);
    if codewords.len() < lengths.len() {
        return Err(Unassigned::TooShort);
    }
    let answer = hand_out(lengths, codewords);
    if answer.is_err() {
        clear(codewords);
    }
    answer
}

// The verdict, and the codewords where it accepts, in a cleared list that has a place for each entry.
fn hand_out(lengths: &[u8], codewords: &mut [u32]) -> Result<(), Unassigned>
    requires { (length lengths.now ≤ length codewords.old) × (codewords.old ≡ replicate (length codewords.old) 0) }
    ensures { (result ≡ verdict lengths.now)
        × (IsOk result → codewords.new ≡ pad (length codewords.old) (ledger_codewords lengths.now)) }
{
    let mut blocks = empty_space();
    for (entry, length) in lengths.iter().enumerate() {
        let value = entry_codeword(&mut blocks, *length);
        if VACANT <= value {
            return Err(Unassigned::Overspecified(entry));
        }
        codewords[entry] = value as u32;
    }
    if is_full(&blocks) {
        return Ok(());
    }
    if is_lone(lengths) {
        return Ok(());
    }
    Err(Unassigned::Underspecified)
}

// The lengths are accepted and these are their codewords: what `assign_codewords` would write into as many places, compared instead of stored.
pub fn are_codewords(lengths: &[u8], codewords: &[u32]) -> bool
    ensures { (result ≡ true) ↔ Coded lengths.now codewords.now }
{
    if lengths.len() != codewords.len() {
        return false;
    }
    let mut blocks = empty_space();
    for (entry, length) in lengths.iter().enumerate() {
        let value = entry_codeword(&mut blocks, *length);
        if value != codewords[entry] as u64 {
            return false;
        }
    }
    is_full(&blocks) || is_lone(lengths)
}

// What an entry's place holds: 0 for an unused entry, which takes nothing; else the codeword taken, or VACANT.
fn entry_codeword(blocks: &mut [u64; 33], length: u8) -> u64
    requires { lib.ListN.length blocks.old ≡ 33 }
    ensures { (result ≡ cond (eqb length 0) 0 (number (enter_answer blocks.old length)))
        × (blocks.new ≡ enter_blocks blocks.old length) }
{
    if length == 0 {
        return 0;
    }
    enter(blocks, length)
}

// The only used entry has length 1.
pub fn is_lone(lengths: &[u8]) -> bool
    ensures { result ≡ is_lone (used lengths.now) }
{
    let first = next_used(lengths, 0);
    if lengths.len() <= first || lengths[first] != 1 {
        return false;
    }
    lengths.len() <= next_used(lengths, first + 1)
}

// The first used entry from `from` on, or the number of entries: the end of the range in which the caller goes on searching.
fn next_used(lengths: &[u8], from: usize) -> usize
    requires { from ≤ length lengths.now }
    ensures { NextUsed lengths.now from result }
{
    for entry in from..lengths.len() {
        if lengths[entry] != 0 {
            return entry;
        }
    }
    lengths.len()
}
