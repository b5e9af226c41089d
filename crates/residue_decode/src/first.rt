// Pass 0, by a cycle of bounded depth.
ghost use Rattle.std.specs.Prelude.{[], ◌≤◌, ◌<◌, length};
ghost use Rattle.bits.specs.Inner.Cursors.{position};
ghost use Rattle.codeword_list.specs.Inner.ListRead.{ReadIntoList};
ghost use Rattle.residue_pass.specs.Inner.Decoders.{PassReady, first_pass_by};
ghost use Rattle.residue_decode.specs.Inner.Parts.{Chunk};

use codeword_list::{Progress, Stop};
use residue_pass::Decoder;

// How many partitions the cycle takes at a time: all, or as many as 16 class words have digits. So it is never more than 32 groups deep, whatever the packet
// (the stack that it takes is bounded).
fn chunk(digits: u32, left: u32) -> u32
    requires { (1 ≤ digits) × (0 < left) }
    ensures { Chunk digits left result }
{
    if left / 16 <= digits {
        return left;
    }
    16 * digits
}

// Pass 0 of `live` vectors of so many partitions.
pub fn first_pass(
    packet: &[u8],
    from: Progress,
    decoder: &Decoder<'_>,
    live: usize,
    partitions: u32,
    out: &mut [u32],
) -> Result<Progress, Stop>
    requires { (from.count ≤ length out.old) × PassReady decoder.now }
    ensures { ReadIntoList (first_pass_by decoder.now live partitions 0 []
        packet.now (position from.at)) out.old from.count result out.new }
{
    let mut next = from;
    // Each step takes as many partitions as the chunk has, so no `for` counts them.
    let mut left = partitions;
    while 0 < left {
        let some = chunk(decoder.digits, left);
        next = residue_pass::cycle::class_word(packet, next, decoder, live, some, out)?;
        left -= some;
    }
    Ok(next)
}
