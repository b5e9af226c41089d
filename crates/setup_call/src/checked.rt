// What is judged before a setup packet's content, and the content (01, "Order": 18, then 17 for the tables, then the first fault in reading order).
ghost use Rattle.std.specs.Prelude.{◌≡◌};
ghost use Rattle.reading.specs.Outcome.{refusal, bad};
ghost use Rattle.bits.specs.Inner.Cursors.{stepped};
ghost use Rattle.bits.specs.Reasons.{number};
ghost use Rattle.setup.specs.Handed.{held_mut, StaysLent};
ghost use Rattle.setup.specs.Inner.Parts.{ReadInto, Small, WrittenOut, checked_part};
ghost use Rattle.setup_call.specs.Inner.Begun.{begun};

use bits::Cursor;
use bits::kind::PacketKind;
use bits::refusal::{Reason, Refusal};
use header::common_header;
use identification::Identity;
use identification::sound::is_sound;
use limits::Limits;
use setup::lent::LentTablesMut;
use setup_buffers::have_room;
use setup_content::read_content;

// A refusal of an argument beside the packet, which no field has: its place is 0.
fn refused_arguments(reason: Reason) -> Result<Cursor, Refusal>
    ensures { stepped result ≡ bad (refusal (number reason) 0) }
{
    Err(Refusal {
        reason,
        place: Cursor::start(),
    })
}

// What is judged before the content: the identity, the tables' room, and the packet's header.
fn begin(packet: &[u8], identity: Identity, limits: Limits, room: bool) -> Result<Cursor, Refusal>
    ensures { stepped result ≡ begun limits identity room packet.now }
{
    if !is_sound(identity, limits) {
        return refused_arguments(Reason::Unsound);
    }
    if !room {
        return refused_arguments(Reason::Room);
    }
    common_header(
        packet,
        PacketKind {
            number: PacketKind::SETUP,
        },
    )
}

// The packet's content in the tables, or the refusal: then nothing is said of the tables.
pub fn read_checked(
    packet: &[u8],
    identity: Identity,
    limits: Limits,
    tables: &mut LentTablesMut<'_>,
) -> Result<Cursor, Refusal>
    requires { Small limits }
    ensures read_into { ReadInto (checked_part limits identity packet.now (held_mut tables.old)) result (WrittenOut (held_mut tables.old) (held_mut tables.new)) }
    ensures lent { StaysLent tables.old tables.new }
{
    let room = have_room(limits, tables.shared());
    let from = begin(packet, identity, limits, room)?;
    read_content(
        packet,
        from,
        limits,
        identity.channels,
        tables.counts,
        tables.books,
        tables.lengths,
        tables.codewords,
        tables.multiplicands,
        tables.floors,
        tables.residues,
        tables.plans,
        tables.mappings,
        tables.modes,
    )
}
