// The tool's progress in its input, and what it writes for a whole one: all that needs no tables. Each function is on slices, without input and output.
#![tactic(auto)]

ghost use Rattle.std.specs.Prelude.{true, ◌≡◌, ◌+◌, ◌≤◌, ◌<◌, length};
ghost use Rattle.std.proofs.lemmas.List.Edits.{sets};
ghost use Rattle.setup.specs.Layout.{Tables};
ghost use Rattle.record_progress.specs.Inner.Taken.{Starts, Room, Moves, MayGoOn, Taken, Within, LastRoom, LastPut, torn_end, waits, skips};

use record_step::Kept;
use records::Answer;

// How far the program has come in its input.
#[derive(Clone, Copy)]
pub struct Progress {
    pub kept: Kept,
    // How many whole records there were.
    pub number: u64,
    // How many bytes of a body that is too long are still to pass. 0 is no other case: it is what is left to pass where a record is due.
    pub skip: usize,
    // Where the bytes begin that are not yet taken.
    pub from: usize,
    // How many places of the lines are filled.
    pub lines_end: usize,
    // More of the input is needed. All else stands in either case.
    pub waiting: bool,
}

// The number of records after which none is taken: the next could be named in a line, and one more could not.
pub const MOST_RECORDS: u64 = u64::MAX - 1;

// Before the first record.
pub fn start() -> Progress
    ensures { Starts result }
{
    Progress {
        kept: record_step::first(),
        number: 0,
        skip: 0,
        from: 0,
        lines_end: 0,
        waiting: false,
    }
}

// Whether another record may be taken: nothing more of the input is needed, there is a number for it, and room for a line.
pub fn may_go_on(progress: Progress, length: usize) -> bool
    requires { progress.lines_end ≤ length }
    ensures { result ≡ true → MayGoOn progress length }
{
    !progress.waiting
        && progress.number < MOST_RECORDS
        && length - progress.lines_end >= record_lines::LONGEST
}

// Less than a record is there.
pub fn wait(progress: Progress) -> Progress
    ensures { result ≡ waits progress }
{
    Progress {
        skip: 0,
        waiting: true,
        ..progress
    }
}

// The head of a record whose body is too long: it has no line yet, since the input may end inside it.
pub fn skip_body(progress: Progress, length: usize) -> Progress
    requires { progress.from + 6 ≤ 18446744073709551615 }
    ensures { result ≡ skips progress length }
{
    Progress {
        skip: length,
        from: progress.from + 6,
        waiting: false,
        ..progress
    }
}

// Passes over the bytes of a body that is too long. Where it ends among those that were read, the record is whole and has its line.
pub fn pass_over(progress: Progress, input: &[u8], lines: &mut [u8]) -> Progress
    requires { Room progress input.now lines.old × (0 < progress.skip) }
    ensures taken { (t : Tables) → Taken progress t input.now lines.old result t lines.new }
    ensures kept_value { (result.kept ≡ progress.kept) × Within result input.now lines.old × Moves progress result }
{
    let present = input.len() - progress.from;
    if present < progress.skip {
        return Progress {
            skip: progress.skip - present,
            from: input.len(),
            waiting: true,
            ..progress
        };
    }
    let number = progress.number + 1;
    Progress {
        number,
        skip: 0,
        from: progress.from + progress.skip,
        lines_end: record_lines::put_line(number, Answer::TooLong, lines, progress.lines_end),
        waiting: false,
        ..progress
    }
}

// Puts the last lines, where the input ends and more of it was needed: the record that it ends inside of is torn.
pub fn put_last(progress: Progress, input: &[u8], lines: &mut [u8]) -> usize
    requires { LastRoom progress input.now lines.old }
    ensures { LastPut progress input.now lines.old result lines.new }
{
    if progress.skip > 0 || progress.from < input.len() {
        return put_torn_end(progress.number, lines, progress.lines_end);
    }
    record_lines::put_end(progress.number, lines, progress.lines_end)
}

// Puts the line that the record behind `number` whole ones is torn, and the last line.
fn put_torn_end(number: u64, lines: &mut [u8], at: usize) -> usize
    requires { (at + 256 ≤ length lines.old) × (number < 18446744073709551615) }
    ensures { (lines.new ≡ sets lines.old at (torn_end number)) × (result ≡ at + length (torn_end number)) × (result ≤ at + 256) }
{
    let end = record_lines::put_torn(number + 1, lines, at);
    record_lines::put_end(number, lines, end)
}
