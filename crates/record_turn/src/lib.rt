// A turn of the tool's run, behind the records that were taken: their lines are written, and more is read where that is needed.
#![tactic(auto)]

pub mod feeding;

ghost use Rattle.std.specs.Prelude.{true, ◌≡◌, ◌<◌};
ghost use Rattle.record_progress.specs.Inner.Taken.{LastRoom};
ghost use Rattle.record_turn.specs.Inner.Turns.{goes_on, Turned, Reads};

use crate::feeding::{make_room, read_more};
use record_progress::{MOST_RECORDS, Progress, put_last};
use std::io::{Print, Stdin, Stdout};
use std::ops::ControlFlow;

// With what the run ends. The number is what the program's exit status is made of.
#[derive(Clone, Copy, Debug, PartialEq, Eq)]
pub enum Status {
    // The input was read to its end.
    Whole = 0,
    // Standard output failed.
    NotWritten = 1,
    // Standard input failed.
    NotRead = 2,
    // There are more records than can be counted.
    NotCounted = 3,
}

// Writes the lines that were put, and reads more where that is needed. The run ends with a status, or it goes on: how far it has come, and where the bytes end
// that were read.
pub fn after_records(
    stdin: Stdin,
    stdout: Stdout,
    progress: Progress,
    to: usize,
    turns: u64,
    input: &mut [u8],
    lines: &mut [u8],
) -> ControlFlow<Status, (Progress, usize)>
    requires { Reads progress to input.old lines.old }
    ensures { Turned progress to turns input.old result input.new lines.new }
{
    if stdout.write_all(&lines[..progress.lines_end]).is_err() {
        return ControlFlow::Break(Status::NotWritten);
    }
    if turns == 0 || progress.number >= MOST_RECORDS {
        return ControlFlow::Break(Status::NotCounted);
    }
    if progress.waiting {
        return read_on(stdin, stdout, progress, to, input, lines);
    }
    ControlFlow::Continue((going(progress, progress.from), to))
}

// Reads more of the input, behind the bytes that are left; at its end, the last lines are written.
fn read_on(
    stdin: Stdin,
    stdout: Stdout,
    progress: Progress,
    to: usize,
    input: &mut [u8],
    lines: &mut [u8],
) -> ControlFlow<Status, (Progress, usize)>
    requires { Reads progress to input.old lines.old × (progress.waiting ≡ true) × (progress.number < 18446744073709551614) }
    ensures { Turned progress to 1 input.old result input.new lines.new }
{
    let span = make_room(input, progress.from, to);
    let Ok(more) = read_more(stdin, input, span.to) else {
        return ControlFlow::Break(Status::NotRead);
    };
    let next = going(progress, span.from);
    if more > 0 {
        return ControlFlow::Continue((next, span.to + more));
    }
    ControlFlow::Break(write_last(stdout, next, &input[..span.to], lines))
}

// Writes the last lines, where the input has ended.
fn write_last(stdout: Stdout, progress: Progress, input: &[u8], lines: &mut [u8]) -> Status
    requires { LastRoom progress input.now lines.old }
{
    let end = put_last(progress, input, lines);
    if stdout.write_all(&lines[..end]).is_err() {
        return Status::NotWritten;
    }
    Status::Whole
}

// The run goes on with the bytes from `from` on and without lines.
fn going(progress: Progress, from: usize) -> Progress
    ensures { result ≡ goes_on progress from }
{
    Progress {
        from,
        lines_end: 0,
        waiting: false,
        ..progress
    }
}
