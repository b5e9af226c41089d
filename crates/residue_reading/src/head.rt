// The fields of a residue before its plan, each judged as soon as it is read (001, "header decode", steps 1 to 5).
ghost use Rattle.std.specs.Prelude.{◌≡◌};
ghost use Rattle.reading.specs.Reader.{mapped};
ghost use Rattle.bits.specs.Inner.Cursors.{position, outcome};
ghost use Rattle.residue.specs.Reading.{head};
ghost use Rattle.residue.specs.Inner.Heads.{head_of};

use bits::Cursor;
use bits::refusal::{Reason, Refusal};
use residue::head::Head;

pub fn read_head(packet: &[u8], from: Cursor, book_count: u32) -> Result<(Head, Cursor), Refusal>
    ensures { mapped head_of (outcome result) ≡ head book_count packet.now (position from) }
{
    let (kind, at_begin) = from.field(packet, 16)?;
    if 2 < kind {
        return Err(Refusal {
            reason: Reason::UnknownType,
            place: from,
        });
    }
    let (begin, at_end) = at_begin.field(packet, 24)?;
    let (end, at_size) = at_end.field(packet, 24)?;
    let (size, at_classes) = at_size.field(packet, 24)?;
    let (classes, at_book) = at_classes.field(packet, 6)?;
    let (classbook, next) = at_book.field(packet, 8)?;
    if book_count <= classbook {
        return Err(Refusal {
            reason: Reason::NotSetUp,
            place: at_book,
        });
    }
    let head = Head {
        kind,
        begin,
        end,
        size: size + 1,
        classifications: classes + 1,
        classbook,
    };
    Ok((head, next))
}
