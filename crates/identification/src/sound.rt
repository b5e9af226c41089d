// When an identity that is handed in is sound.
ghost use Rattle.std.specs.Prelude.{◌≡◌, true, ◌↔◌};
ghost use Rattle.reading.specs.Lists.{listed};
ghost use Rattle.identification.specs.Sound.{allowed_sizes, Sound};

use super::Identity;
use limits::Limits;

// Whether n is one of the eight block sizes.
pub fn is_block_size(n: u32) -> bool
    ensures { result ≡ listed n allowed_sizes }
{
    [64, 128, 256, 512, 1024, 2048, 4096, 8192].contains(&n)
}

// Whether refusals 4 and 14 would not refuse it (01, "What the reader takes and gives").
pub fn is_sound(identity: Identity, limits: Limits) -> bool
    ensures { (result ≡ true) ↔ Sound limits.channels identity }
{
    identity.channels != 0
        && identity.channels <= limits.channels
        && identity.rate != 0
        && identity.blocksize0 <= identity.blocksize1
        && is_block_size(identity.blocksize0)
        && is_block_size(identity.blocksize1)
}
