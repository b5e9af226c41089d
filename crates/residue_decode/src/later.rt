// One later pass: its class words stand in the list, where pass 0 put them.
ghost use Rattle.std.specs.Prelude.{◌≡◌, ◌≤◌, ◌<◌, length};
ghost use Rattle.bits.specs.Inner.Cursors.{position};
ghost use Rattle.residue_requests.specs.Inner.Again.{next_class, ClassWordsBefore};
ghost use Rattle.codeword_list.specs.Inner.ListRead.{ReadIntoList};
ghost use Rattle.residue_pass.specs.Inner.Decoders.{PassReady, partitions_by};
ghost use Rattle.residue_decode.specs.Inner.Parts.{classes_found};

use codeword_list::{Progress, Stop};
use residue_pass::Decoder;

// The place of the next class word in the list, from a place on; where there is none, the list's end or that place, behind which
// nothing is read. Every other codeword is odd.
pub fn next_class(list: &[u32], from: usize) -> usize
    ensures { result ≡ next_class list.now from }
{
    for at in from..list.len() {
        if list[at] % 2 == 0 {
            return at;
        }
    }
    from.max(list.len())
}

// A pass over so many partitions of each vector, whose class words stand in the list from place `start` on.
pub fn later_pass(
    packet: &[u8],
    from: Progress,
    decoder: &Decoder<'_>,
    start: usize,
    live: usize,
    partitions: u32,
    pass: u32,
    out: &mut [u32],
) -> Result<Progress, Stop>
    requires { (from.count ≤ length out.old) × PassReady decoder.now
        × (pass < 8) × (1 ≤ live) × ClassWordsBefore decoder.now.digits live from.count out.old partitions 0 start }
    ensures { ReadIntoList (partitions_by decoder.now pass
        (classes_found decoder.now live out.old partitions start)
        packet.now (position from.at)) out.old from.count result out.new }
{
    let mut next = from;
    let mut place = start;
    // Each step takes as many partitions as a class word has digits, so no `for` counts them.
    let mut left = partitions;
    while 0 < left {
        let at = next_class(out, place);
        let rows = decoder.digits.min(left);
        next = residue_pass::partition::read_rows(
            packet, next, decoder, at, live, rows, pass, out,
        )?;
        place = at + live;
        left -= rows;
    }
    Ok(next)
}
