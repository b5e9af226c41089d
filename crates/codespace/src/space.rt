// A space of codewords of 1 to 32 bits. Entering a length hands out the lowest free codeword of that length, or refuses.
// The free strings of 32 bits are kept as at most one block of each size: blocks[h] is the first of 2^h free strings in a row, or VACANT.
// A length takes the smallest block that is large enough, from its lower end; the upper halves that are cut off on the way down are the
// blocks of the sizes between, which were vacant.
ghost use Rattle.std.specs.Prelude.{◌≡◌, [], map, ◌-◌, ◌<◌, ◌≤◌, IsOk};
ghost use lib.ListN.{length, set, take};
ghost use Rattle.codespace.specs.Claims.{Balanced};
ghost use Rattle.codespace.specs.Inner.Blocks.{vacant, empty_blocks, enter_answer, Reached};
ghost use Rattle.codespace.specs.Inner.Steps.{first_occupied, upper_halves};
ghost use Rattle.codespace.specs.Answers.{outcome, is_none};
ghost use Rattle.codespace.specs.Entering.{Entered, entering, entered_all};

use reading::buffers::clear;

// No string of 32 bits: one past the last. As an answer, a refusal. `torchvalley_enter_lengths` of the C interface hands out this number, so that an Option
// would only be turned into it again.
pub const VACANT: u64 = 4294967296;

// Everything is free: one block of 2^32 strings.
pub fn empty_space() -> [u64; 33]
    ensures { (result ≡ empty_blocks) × Reached [] result }
{
    let mut blocks = [VACANT; 33];
    blocks[32] = 0;
    blocks
}

// The height of the smallest block of at least 2^height strings, or 33, above every height, where there is none: callers compare with 33.
fn smallest_block(blocks: &[u64; 33], height: usize) -> usize
    requires { height ≤ 32 }
    ensures { result ≡ first_occupied (33 - height) height blocks.now }
{
    for h in height..33 {
        if blocks[h] < VACANT {
            return h;
        }
    }
    33
}

// The block of 2^from strings at `first` is gone, but for the upper halves that its first 2^height strings leave.
fn split_block(blocks: &mut [u64; 33], height: usize, from: usize, first: u64)
    requires { (height ≤ from) × (from ≤ 32) × (first < vacant) }
    ensures { blocks.new ≡ upper_halves height (from - height) first (set blocks.old from vacant) }
{
    blocks[from] = VACANT;
    for h in (height..from).rev() {
        blocks[h] = first + (1 << h);
    }
}

// Enters one length (demand 3): the lowest free codeword of that length, taken out of the space where it lies; or VACANT, and the space stays.
// A length outside 1 to 32 is refused.
pub fn enter(blocks: &mut [u64; 33], length: u8) -> u64
    requires { lib.ListN.length blocks.old ≡ 33 }
    ensures { Entered blocks.old length result blocks.new }
{
    if length < 1 || 32 < length {
        return VACANT;
    }
    let height = (32 - length) as usize;
    let from = smallest_block(blocks, height);
    if 33 <= from {
        return VACANT;
    }
    let first = blocks[from];
    split_block(blocks, height, from, first);
    first >> height
}

// Nothing is left: a length of 32 would be refused.
pub fn is_full(blocks: &[u64; 33]) -> bool
    requires { length blocks.now ≡ 33 }
    ensures { result ≡ is_none (enter_answer blocks.now 32) }
{
    smallest_block(blocks, 0) >= 33
}

// The lent list has fewer places than there are lengths: refusal 17.
#[derive(Clone, Copy, Debug, PartialEq, Eq)]
pub struct TooShort;

// Enters a list of lengths one by one, from an empty space (demand 3): `answers` has each answer as a number, the codeword or VACANT, and zeros behind
// them. Where there are fewer places than lengths, all are zero.
pub fn enter_lengths(lengths: &[u8], answers: &mut [u64]) -> Result<(), TooShort>
    ensures answers_after { (entering result, answers.new) ≡ entered_all lengths.now (length answers.old) }
    ensures balanced { IsOk result → Balanced lengths.now (map outcome (take (length lengths.now) answers.new)) }
{
    clear(answers);
    if answers.len() < lengths.len() {
        return Err(TooShort);
    }
    let mut blocks = empty_space();
    for (i, length) in lengths.iter().enumerate() {
        answers[i] = enter(&mut blocks, *length);
    }
    Ok(())
}
