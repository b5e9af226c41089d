// The fields before a codebook's lengths, each judged as soon as it is read (002; 01, refusals 6 and 14).
ghost use Rattle.std.specs.Prelude.{◌≡◌, ◌≤◌};
ghost use Rattle.bits.specs.Inner.Cursors.{position, outcome};
ghost use Rattle.book.specs.HeadReading.{head, totals};
ghost use Rattle.book_head.specs.Inner.Parts.{entry_count};

use bits::Cursor;
use bits::refusal::{Reason, Refusal};
use book::Head;
use limits::Limits;

// How many entries the book has. `before` is how many the books before have.
fn read_entry_count(
    packet: &[u8],
    from: Cursor,
    limits: Limits,
    before: u32,
) -> Result<(u32, Cursor), Refusal>
    requires { before ≤ limits.entries }
    ensures { outcome result ≡ entry_count limits before packet.now (position from) }
{
    let (entries, next) = from.field(packet, 24)?;
    if entries == 0 {
        return Err(Refusal {
            reason: Reason::Codebook,
            place: from,
        });
    }
    if limits.book_entries < entries {
        return Err(Refusal {
            reason: Reason::Limit,
            place: from,
        });
    }
    if limits.entries - before < entries {
        return Err(Refusal {
            reason: Reason::Limit,
            place: from,
        });
    }
    Ok((entries, next))
}

// `before` is how many entries the books before have.
pub fn read_head(
    packet: &[u8],
    from: Cursor,
    limits: Limits,
    before: u32,
) -> Result<(Head, Cursor), Refusal>
    requires { before ≤ limits.entries }
    ensures { outcome result ≡ head limits (totals before 0) packet.now (position from) }
{
    let (pattern, at_dimensions) = from.field(packet, 24)?;
    if pattern != 0x564342 {
        return Err(Refusal {
            reason: Reason::Codebook,
            place: from,
        });
    }
    let (dimensions, at_entries) = at_dimensions.field(packet, 16)?;
    if dimensions == 0 {
        return Err(Refusal {
            reason: Reason::Codebook,
            place: at_dimensions,
        });
    }
    let (entries, next) = read_entry_count(packet, at_entries, limits, before)?;
    Ok((
        Head {
            dimensions,
            entries,
        },
        next,
    ))
}
