// How many submaps and how many coupling steps a mapping has: each number stands behind a flag.
ghost use Rattle.std.specs.Prelude.{◌≡◌, ◌≤◌, suc, cond, eqb};
ghost use Rattle.reading.specs.Outcome.{then, ok};
ghost use Rattle.reading.specs.Reader.{mapped};
ghost use Rattle.bits.specs.Field.{field};
ghost use Rattle.bits.specs.Inner.Cursors.{position, outcome};
ghost use Rattle.mapping.specs.Reading.{submap_count, coupling_count};

use bits::Cursor;
use bits::refusal::Refusal;

// `otherwise`, or a field of `width` bits plus one behind a set flag.
#[tactic(auto, using(crate::proofs::Fits::one_more_fits), unfolding(bits::specs::Inner::Cursors::outcome, reading::specs::Reader::mapped))]
fn read_behind_flag(
    packet: &[u8],
    from: Cursor,
    otherwise: u32,
    width: usize,
) -> Result<(u32, Cursor), Refusal>
    requires { width ≤ 8 }
    ensures { outcome result ≡ then (field 1 packet.now (position from))
        (λ flag. cond (eqb flag.0 0) (ok (otherwise, flag.1)) (mapped suc (field width packet.now flag.1))) }
{
    let (flag, at_count) = from.bit(packet)?;
    if flag == 0 {
        return Ok((otherwise, at_count));
    }
    let (number, next) = at_count.field(packet, width)?;
    Ok((number + 1, next))
}

// One, or 4 bits plus one.
#[tactic(auto, unfolding(mapping::specs::Reading::submap_count))]
pub fn read_submap_count(packet: &[u8], from: Cursor) -> Result<(u32, Cursor), Refusal>
    ensures { outcome result ≡ submap_count packet.now (position from) }
{
    read_behind_flag(packet, from, 1, 4)
}

// None, or 8 bits plus one.
#[tactic(auto, unfolding(mapping::specs::Reading::coupling_count))]
pub fn read_coupling_count(packet: &[u8], from: Cursor) -> Result<(u32, Cursor), Refusal>
    ensures { outcome result ≡ coupling_count packet.now (position from) }
{
    read_behind_flag(packet, from, 0, 8)
}
