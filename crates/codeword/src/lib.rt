// Reading one codeword of a packet, bit by bit (01, "Bits and books"; 002, "Using a codebook").
#![tactic(auto)]

pub mod unused;
pub mod window;

ghost use Rattle.std.specs.Prelude.{◌≡◌, ◌+◌, ◌/◌, ◌%◌, ◌^◌, ◌<◌};
ghost use Rattle.reading.specs.Outcome.{refusal};
ghost use Rattle.reading.specs.Reader.{mapped};
ghost use Rattle.bits.specs.Field.{field};
ghost use Rattle.bits.specs.Inner.Cursors.{position, refusal_of, outcome};
ghost use Rattle.codeword_assignment.specs.Book.{lone_mark};
ghost use Rattle.codeword.specs.Codeword.{codeword, lone_bits, matching};
ghost use Rattle.codeword.specs.Inner.Book.{Codebook};
ghost use Rattle.codeword.specs.Inner.Claims.{Settled};
ghost use Rattle.codeword.specs.Inner.Window.{NextBits};

use bits::Cursor;
use bits::refusal::{Reason, Refusal};
use unused::past_unused;
use window::{Window, window_at};

// The entry whose codeword stands at the cursor, with the position behind it; or the cut, where the packet ends within the codeword. `lone` is the
// number of the book's sole used entry of length 1 plus one, or 0 where it has none. The next bits are taken before the two cases part: a caller's
// loop then stays one loop, where two would leave the search fewer registers. The cases look at these bits alone; the packet is handed on for their contracts.
pub fn read_codeword(
    packet: &[u8],
    from: Cursor,
    lone: u32,
    lengths: &[u8],
    codewords: &[u32],
) -> Result<(u32, Cursor), Refusal>
    requires { Codebook lengths.now codewords.now × (lone ≡ lone_mark lengths.now) }
    ensures result_value { outcome result ≡ codeword lengths.now packet.now (position from) }
    ensures settled { Settled lengths.now }
{
    let next = window_at(packet, from);
    if lone != 0 {
        return lone_entry(packet, from, next, lone - 1);
    }
    match_codeword(packet, from, next, lengths, codewords)
}

// A sole used entry takes one bit, which may be either (02, wish 3): it is there where a bit is.
fn lone_entry(
    packet: &[u8],
    from: Cursor,
    next: Window,
    entry: u32,
) -> Result<(u32, Cursor), Refusal>
    requires { NextBits packet.now (position from) next.count next.bits }
    ensures { outcome result ≡ mapped (λ _. entry) (field lone_bits packet.now (position from)) }
{
    if next.count == 0 {
        return Err(cut(from));
    }
    Ok((entry, after(from, 1)))
}

// Bits are taken one at a time until they are an entry's codeword. An entry whose codeword does not begin with the bits taken so far does not
// begin with more of them either, so the entry search goes on where it stopped: it passes each entry once a codeword, not once a bit. Behind an entry
// that is too short there are often many unused ones. The loops search and move by different steps, so neither is a `for`: its index would be set aside.
fn match_codeword(
    packet: &[u8],
    from: Cursor,
    next: Window,
    lengths: &[u8],
    codewords: &[u32],
) -> Result<(u32, Cursor), Refusal>
    requires { Codebook lengths.now codewords.now × NextBits packet.now (position from) next.count next.bits }
    ensures { outcome result ≡ matching lengths.now 0 32 packet.now (position from) }
{
    let mut word: u32 = 0;
    let mut taken: usize = 0;
    let mut entry: usize = 0;
    'word: loop {
        if taken == next.count {
            break 'word Err(cut(from));
        }
        word = word * 2 + bit(next.bits, taken);
        taken += 1;
        'entry: loop {
            if entry == lengths.len() {
                break 'word Err(cut(from));
            }
            let length = lengths[entry] as usize;
            if taken <= length {
                if codewords[entry] >> (length - taken) == word {
                    if taken == length {
                        break 'word Ok((entry as u32, after(from, taken)));
                    }
                    continue 'word;
                }
                entry += 1;
                continue 'entry;
            }
            entry = past_unused(lengths, entry + 1);
        }
    }
}

// The cut: refusal 1 at the codeword's first bit.
fn cut(from: Cursor) -> Refusal
    ensures { refusal_of result ≡ refusal 1 (position from) }
{
    Refusal {
        reason: Reason::Cut,
        place: from,
    }
}

// Bit `taken` of the next bits.
fn bit(bits: u64, taken: usize) -> u32
    requires { taken < 32 }
    ensures { result ≡ bits / 2 ^ taken % 2 }
{
    ((bits >> taken) % 2) as u32
}

// The position `taken` bits behind the cursor.
fn after(from: Cursor, taken: usize) -> Cursor
    requires { (taken < 33) × (from.byte < 9223372036854775808) }
    ensures { position result ≡ position from + taken }
{
    let bit = from.bit as usize + taken;
    Cursor {
        byte: from.byte + bit / 8,
        bit: (bit % 8) as u8,
    }
}
