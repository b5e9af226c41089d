// A residue whole: pass 0, then the later passes.
ghost use Rattle.std.specs.Prelude.{◌≤◌, ◌<◌, length};
ghost use Rattle.bits.specs.Inner.Cursors.{position};
ghost use Rattle.residue_requests.specs.Inner.Again.{ClassWordsBefore};
ghost use Rattle.codeword_list.specs.Inner.ListRead.{ReadIntoList};
ghost use Rattle.residue_pass.specs.Inner.Decoders.{PassReady};
ghost use Rattle.residue_decode.specs.Inner.Parts.{later_passes_by, residue_by_decoder, classes_found};

use codeword_list::{Progress, Stop};
use residue_pass::Decoder;

// Passes 1 to 7, as far as there is a book.
pub fn later_passes(
    packet: &[u8],
    from: Progress,
    decoder: &Decoder<'_>,
    start: usize,
    live: usize,
    partitions: u32,
    out: &mut [u32],
) -> Result<Progress, Stop>
    requires { (from.count ≤ length out.old) × PassReady decoder.now
        × (1 ≤ live) × ClassWordsBefore decoder.now.digits live from.count out.old partitions 0 start }
    ensures { ReadIntoList (later_passes_by decoder.now 1 7
        (classes_found decoder.now live out.old partitions start)
        packet.now (position from.at)) out.old from.count result out.new }
{
    let last = super::last::last_pass(decoder.plans, decoder.residue, decoder.head.classifications);
    let mut next = from;
    for pass in 1..=last {
        next = super::later::later_pass(packet, next, decoder, start, live, partitions, pass, out)?;
    }
    Ok(next)
}

// All codewords of a residue: of `live` vectors of so many partitions.
pub fn read_residue(
    packet: &[u8],
    from: Progress,
    decoder: &Decoder<'_>,
    live: usize,
    partitions: u32,
    out: &mut [u32],
) -> Result<Progress, Stop>
    requires { (from.count ≤ length out.old) × PassReady decoder.now }
    ensures { ReadIntoList (residue_by_decoder decoder.now live partitions
        packet.now (position from.at)) out.old from.count result out.new }
{
    if live == 0 {
        return Ok(from);
    }
    let next = super::first::first_pass(packet, from, decoder, live, partitions, out)?;
    later_passes(packet, next, decoder, from.count, live, partitions, out)
}
