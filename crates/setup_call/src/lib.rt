// THE SETUP CALL: any identity, any bytes, any lent tables. The packet is judged and read; then, once, what the call leaves in the tables is settled.
#![tactic(auto)]

pub mod checked;

ghost use Rattle.std.specs.Prelude.{◌≡◌};
ghost use Rattle.setup.specs.Handed.{held_mut, StaysLent};
ghost use Rattle.setup.specs.Call.{left, setup_call};
ghost use Rattle.setup.specs.Accepted.{AcceptedSound};
ghost use Rattle.setup.specs.Inner.Parts.{Small};

use crate::checked::read_checked;
use identification::Identity;
use limits::Limits;
use setup::lent::LentTablesMut;
use setup_buffers::settle;

// 0 where the packet is accepted: the tables hold its content. Else the number of the refusal, and every table is all zero. A number, as C is answered: 0 is
// no reason.
pub fn read_setup(
    packet: &[u8],
    identity: Identity,
    limits: Limits,
    tables: &mut LentTablesMut<'_>,
) -> u32
    requires { Small limits }
    ensures modes_value { left result (held_mut tables.new) ≡ setup_call limits identity packet.now (held_mut tables.old) }
    ensures accepted_sound { AcceptedSound limits identity packet.now (held_mut tables.old) }
    ensures lent { StaysLent tables.old tables.new }
{
    match read_checked(packet, identity, limits, tables) {
        Ok(next) => settle(Ok(next), tables),
        Err(refusal) => settle(Err(refusal.reason.number()), tables),
    }
}
