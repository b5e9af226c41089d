// The tally of a stream: whether it is sound, and its step (01, "What the reader takes and gives"; "Audio order" 6; refusals 18 and 19).
#![tactic(auto)]

ghost use Rattle.std.specs.Prelude.{◌&&◌, ℕ, eqb, ◌≡◌};
ghost use Rattle.audio.specs.Tally.{tally_sound, finished, counted};
ghost use Rattle.audio_tally.specs.Inner.Answers.{counted_as};

use audio::Tally;
use identification::Identity;

// Whether no packet of the stream has been accepted: both numbers are 0.
fn is_fresh(tally: Tally) -> bool
    ensures { result ≡ (eqb tally.blocksize 0 && eqb tally.samples 0) }
{
    tally.blocksize == 0 && tally.samples == 0
}

// Whether the tally can be one of a stream with this identity.
pub fn is_sound(identity: Identity, tally: Tally) -> bool
    ensures { result ≡ tally_sound identity tally }
{
    is_fresh(tally)
        || tally.blocksize == identity.blocksize0
        || tally.blocksize == identity.blocksize1
}

// The samples that a block finishes: none for a stream's first, then a quarter of the block before and a quarter of this one.
pub fn finished(tally: Tally, blocksize: u32) -> u64
    ensures { result ≡ finished tally blocksize }
{
    if tally.blocksize == 0 {
        0
    } else {
        (tally.blocksize / 4 + blocksize / 4) as u64
    }
}

// The tally after a block, by value, and the samples that the block finishes; none where the samples would pass 2^64 - 1 (19).
pub fn count(tally: Tally, blocksize: u32) -> Option<(Tally, u64)>
    ensures { (stop : ℕ) → counted_as result ≡ counted tally blocksize stop }
{
    let samples = finished(tally, blocksize);
    let all = tally.samples.checked_add(samples)?;
    let after = Tally {
        blocksize,
        samples: all,
    };
    Some((after, samples))
}
