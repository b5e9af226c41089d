// Which channels are live: those whose floor is used, and of a coupling step's channels both, if either is (003, 4.3.3; 01, "Audio order" 4).
// A channel's place holds 1 where it is live and 0 where it is not; places past the last channel hold 0.
ghost use Rattle.std.specs.Prelude.{◌≤◌, ◌<◌, ◌≡◌, length};
ghost use Rattle.mapping_row.specs.Inner.Readable.{mapping_in, MappingReadable};
ghost use Rattle.audio.specs.Channels.{coupled};
ghost use Rattle.audio_channels.specs.Inner.Live.{used_bools, live_bytes, coupled_bytes};

use mapping_row::MappingRow;

// The channels whose floor is used. Flags are bytes here as where they come from: what C is answered (AudioAnswer).
fn used_channels(used: &[u8], channels: usize) -> [u8; 255]
    requires { (length used.now ≡ 255) × (channels ≤ 255) }
    ensures { result ≡ live_bytes (used_bools channels used.now) }
{
    let mut live = [0u8; 255];
    for i in 0..channels {
        live[i] = (used[i] != 0) as u8;
    }
    live
}

// One coupling step.
fn couple(live: &mut [u8; 255], magnitude: usize, angle: usize)
    requires { (magnitude < 255) × (angle < 255) }
    ensures { live.new ≡ coupled_bytes magnitude angle live.old }
{
    if live[magnitude] != 0 || live[angle] != 0 {
        live[magnitude] = 1;
        live[angle] = 1;
    }
}

// The coupling steps in order, once: a channel that a later step makes live makes none live by an earlier one.
fn sweep(flags: [u8; 255], channels: u32, row: MappingRow) -> [u8; 255]
    requires { (flags ≡ live_bytes (used_bools channels flags)) × (channels ≤ 255) × MappingReadable channels row.mappings.now row.number }
    ensures { result ≡ live_bytes (coupled (mapping_in row.entry.mappings.now row.entry.number).couplings (used_bools channels flags)) }
{
    let mut live = flags;
    for i in 0..row.coupling_steps() {
        let first = row.magnitude(i) as usize;
        let second = row.angle(i) as usize;
        couple(&mut live, first, second);
    }
    live
}

// The live channels: those whose floor is used, swept once.
pub fn live_channels(used: &[u8], channels: u32, row: MappingRow) -> [u8; 255]
    requires { (length used.now ≡ 255) × (channels ≤ 255) × MappingReadable channels row.mappings.now row.number }
    ensures { result ≡ live_bytes (coupled (mapping_in row.entry.mappings.now row.entry.number).couplings (used_bools channels used.now)) }
{
    let live = used_channels(used, channels as usize);
    sweep(live, channels, row)
}
