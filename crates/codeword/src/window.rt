// The next bits of a packet at once: one load of eight bytes where eight are there, so that a codeword's bits need no test and no load each.
ghost use Rattle.std.specs.Prelude.{◌≡◌, ◌+◌, ◌*◌, ◌/◌, ◌%◌, ◌^◌, ◌<◌, ◌≤◌, length};
ghost use Rattle.bits.specs.Field.{value_at};
ghost use Rattle.bits.specs.Inner.Cursors.{position};
ghost use Rattle.codeword.specs.Inner.Window.{NextBits};

use bits::Cursor;

// The next bits of a packet: bit i of `bits` is the i-th from the position on, for i below `count`, which is 32 or as many as there are.
#[derive(Clone, Copy)]
pub struct Window {
    pub bits: u64,
    pub count: usize,
}

// The window at a cursor. Its bit may pass 7, so whole bytes go to the byte first; the first test keeps that sum below 2^64.
pub fn window_at(packet: &[u8], from: Cursor) -> Window
    ensures { NextBits packet.now (position from) result.count result.bits }
{
    if packet.len() <= from.byte {
        return Window { bits: 0, count: 0 };
    }
    let bit = from.bit as usize;
    let at = from.byte + bit / 8;
    if packet.len() <= at {
        return Window { bits: 0, count: 0 };
    }
    let left = packet.len() - at;
    if left < 8 {
        return Window {
            bits: last_bytes(packet, at, left) >> (bit % 8),
            count: (8 * left - bit % 8).min(32),
        };
    }
    Window {
        bits: eight_bytes(packet, at) >> (bit % 8),
        count: 32,
    }
}

// Eight bytes that are there as a number, the first the lowest. The count is constant, so that they become one load.
fn eight_bytes(packet: &[u8], at: usize) -> u64
    requires { at + 8 ≤ length packet.now }
    ensures { result ≡ value_at packet.now (8 * at) 64 }
{
    let mut number: u64 = 0;
    for i in 0..8 {
        number += (packet[at + i] as u64) << (8 * i);
    }
    number
}

// The bytes that are left, fewer than eight. Not one function with `eight_bytes`: a count that is no constant would not become one load.
// Nor with `bits::whole_bytes`, which is for a field's bytes, five at most.
fn last_bytes(packet: &[u8], at: usize, left: usize) -> u64
    requires { (left < 8) × (at + left ≤ length packet.now) }
    ensures { result ≡ value_at packet.now (8 * at) (8 * left) }
{
    let mut number: u64 = 0;
    for i in 0..left {
        number += (packet[at + i] as u64) << (8 * i);
    }
    number
}
