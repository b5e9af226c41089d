// Records taken from the bytes that were read, each with its line: on slices, without input and output.
#![tactic(auto)]

ghost use Rattle.std.specs.Prelude.{◌≡◌, drop};
ghost use Rattle.setup.specs.Handed.{held_mut, StaysLent};
ghost use Rattle.records.specs.declared.Front.TheVariants.{Whole};
ghost use Rattle.records.specs.Inner.Fronts.{front};
ghost use Rattle.record_step.specs.Inner.Kept.{KeptTables, KeptOutputs};
ghost use Rattle.record_progress.specs.Inner.Taken.{Room, Moves, Taken, Within};

use record_progress::{Progress, may_go_on, pass_over, skip_body, wait};
use records::Front;
use setup::lent::LentTablesMut;

// Takes records and puts their lines, until more of the input is needed, the lines are nearly full, or no further record could be counted.
pub fn take_records(
    progress: Progress,
    input: &[u8],
    tables: &mut LentTablesMut<'_>,
    curves: &mut [u8],
    words: &mut [u32],
    lines: &mut [u8],
) -> Progress
    requires kept_tables { KeptTables progress.kept (held_mut tables.old) × KeptOutputs progress.kept curves.old words.old }
    requires room { Room progress input.now lines.old }
    ensures taken { Taken progress (held_mut tables.old) input.now lines.old result (held_mut tables.new) lines.new }
    ensures kept_after { KeptTables result.kept (held_mut tables.new) × KeptOutputs result.kept curves.new words.new }
    ensures within { Within result input.now lines.old }
    ensures lent { StaysLent tables.old tables.new }
{
    let mut at = progress;
    // No `for`: how many records are taken is known only where the bytes end, and the first is taken before that is asked.
    loop {
        at = take_record(at, input, tables, curves, words, lines);
        if !may_go_on(at, lines.len()) {
            return at;
        }
    }
}

// Takes what is at the front of the bytes that are left: bytes of a body that is passed over, or a record, or the head of one that is too long.
fn take_record(
    progress: Progress,
    input: &[u8],
    tables: &mut LentTablesMut<'_>,
    curves: &mut [u8],
    words: &mut [u32],
    lines: &mut [u8],
) -> Progress
    requires kept_tables { KeptTables progress.kept (held_mut tables.old) × KeptOutputs progress.kept curves.old words.old }
    requires room { Room progress input.now lines.old }
    ensures taken { Taken progress (held_mut tables.old) input.now lines.old result (held_mut tables.new) lines.new }
    ensures kept_after { KeptTables result.kept (held_mut tables.new) × KeptOutputs result.kept curves.new words.new }
    ensures within { Within result input.now lines.old × Moves progress result }
    ensures lent { StaysLent tables.old tables.new }
{
    if progress.skip > 0 {
        return pass_over(progress, input, lines);
    }
    match records::look(&input[progress.from..]) {
        Front::Partial => wait(progress),
        Front::TooLong(length) => skip_body(progress, length),
        Front::Whole(kind, length) => take_whole(
            progress, kind, length, input, tables, curves, words, lines,
        ),
    }
}

// Takes a whole record: what it comes to, and its line.
fn take_whole(
    progress: Progress,
    kind: u32,
    length: usize,
    input: &[u8],
    tables: &mut LentTablesMut<'_>,
    curves: &mut [u8],
    words: &mut [u32],
    lines: &mut [u8],
) -> Progress
    requires kept_tables { KeptTables progress.kept (held_mut tables.old) × KeptOutputs progress.kept curves.old words.old }
    requires room { Room progress input.now lines.old × (progress.skip ≡ 0) × (Whole kind length ≡ front (drop progress.from input.now)) }
    ensures taken { Taken progress (held_mut tables.old) input.now lines.old result (held_mut tables.new) lines.new }
    ensures kept_after { KeptTables result.kept (held_mut tables.new) × KeptOutputs result.kept curves.new words.new }
    ensures within { Within result input.now lines.old × Moves progress result }
    ensures lent { StaysLent tables.old tables.new }
{
    let from = progress.from + 6;
    let to = from + length;
    let stepped = record_step::step(progress.kept, kind, &input[from..to], tables, curves, words);
    let number = progress.number + 1;
    Progress {
        kept: stepped.kept,
        number,
        skip: 0,
        from: to,
        lines_end: record_lines::put_line(number, stepped.answer, lines, progress.lines_end),
        waiting: false,
    }
}
