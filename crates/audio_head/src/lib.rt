// The head of an audio packet: type bit, mode, window flags, read from the packet and the table of modes; and the window's points (01, "Audio order" 1; 003,
// 4.3.1). Each field is judged as soon as it is read.
#![tactic(auto)]

pub mod points; // the window's points

ghost use Rattle.std.specs.Prelude.{ℕ, ◌≤◌, List, ◌≡◌};
ghost use Rattle.bits.specs.Inner.Cursors.{position, outcome};
ghost use Rattle.requests.specs.Run.{read, run};
ghost use Rattle.requests.specs.Refusing.{came_to};
ghost use Rattle.audio.specs.Head.{block_size, head_requests};
ghost use Rattle.audio_head.specs.Inner.Readers.{modes_in, blockflag_in, flags_reader, mode_reader};

use audio::Head;
use bits::Cursor;
use bits::refusal::{Reason, Refusal};
use identification::Identity;

// The block size that goes with a block flag.
pub fn block_size(identity: Identity, blockflag: u32) -> u32
    ensures { result ≡ block_size identity blockflag }
{
    if blockflag == 0 {
        identity.blocksize0
    } else {
        identity.blocksize1
    }
}

// The flags of a long block; a short block has none.
fn read_flags(
    packet: &[u8],
    from: Cursor,
    identity: Identity,
    mode: u32,
    blockflag: u32,
) -> Result<(Head, Cursor), Refusal>
    ensures { outcome result ≡ flags_reader identity mode blockflag packet.now (position from) }
{
    let blocksize = block_size(identity, blockflag);
    if blockflag == 0 {
        let head = Head {
            mode,
            blockflag: 0,
            blocksize,
            previous: 0,
            next: 0,
        };
        return Ok((head, from));
    }
    let (previous, at_next) = from.bit(packet)?;
    let (next, after) = at_next.bit(packet)?;
    let head = Head {
        mode,
        blockflag,
        blocksize,
        previous,
        next,
    };
    Ok((head, after))
}

// The block flag of a mode, from the table.
fn blockflag_of(modes: &[u8], mode: u32) -> u32
    requires { mode ≤ 63 }
    ensures { result ≡ blockflag_in modes.now mode }
{
    mode_row::blockflag(modes, mode as usize) as u32
}

// The mode, 16 where it is not set up; then the flags.
fn read_mode(
    packet: &[u8],
    from: Cursor,
    identity: Identity,
    mode_count: u32,
    modes: &[u8],
) -> Result<(Head, Cursor), Refusal>
    requires { (1 ≤ mode_count) × (mode_count ≤ 64) }
    ensures { outcome result ≡ mode_reader identity mode_count (blockflag_in modes.now) packet.now (position from) }
{
    let width = bits::ilog::ilog(mode_count - 1);
    let (mode, at_flags) = from.field(packet, width)?;
    if mode >= mode_count {
        return Err(Refusal {
            reason: Reason::Mode,
            place: from,
        });
    }
    let blockflag = blockflag_of(modes, mode);
    read_flags(packet, at_flags, identity, mode, blockflag)
}

// THE HEAD, from a packet's first bit on: 15 where the type bit is 1. `mode_count` is how many modes are set up.
pub fn read_head(
    packet: &[u8],
    identity: Identity,
    mode_count: u32,
    modes: &[u8],
) -> Result<(Head, Cursor), Refusal>
    requires { (1 ≤ mode_count) × (mode_count ≤ 64) }
    ensures { (lengths_of : ℕ → List ℕ)
        → outcome result ≡ came_to (run (read lengths_of) (head_requests identity (modes_in modes.now mode_count)) packet.now 0) }
{
    let start = Cursor::start();
    let (type_bit, at_mode) = start.bit(packet)?;
    if type_bit != 0 {
        return Err(Refusal {
            reason: Reason::NotAudio,
            place: start,
        });
    }
    read_mode(packet, at_mode, identity, mode_count, modes)
}
