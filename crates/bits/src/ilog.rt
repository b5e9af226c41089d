// How many bits a number has.
ghost use Rattle.std.specs.Prelude.{◌≡◌};
ghost use Rattle.bits.specs.Ilog.{ilog};

// The place of the highest set bit, counted from 1; 0 for 0 (01, "Bits and books").
pub fn ilog(v: u32) -> usize
    ensures { result ≡ ilog v }
{
    (32 - u32::leading_zeros(v)) as usize
}
