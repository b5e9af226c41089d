// How many curve bytes a packet has (01, "What the reader takes and gives").
ghost use Rattle.std.specs.Prelude.{◌≡◌, ◌*◌, ◌/◌, ◌≤◌};

// Channels times n/2, whatever floors are used.
pub fn curve_bytes(channels: u32, blocksize: u32) -> usize
    requires { (channels ≤ 255) × (blocksize ≤ 8192) }
    ensures { result ≡ channels * (blocksize / 2) }
{
    channels as usize * (blocksize / 2) as usize
}
