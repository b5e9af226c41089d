// The run: records are taken, their lines are written, more is read, until the input ends.
ghost use Rattle.setup.specs.Handed.{held_mut, StaysLent};
ghost use Rattle.voicelog.specs.Inner.Buffers.{Buffers};

use record_progress::start;
use record_taking::take_records;
use record_turn::{Status, after_records};
use setup::lent::LentTablesMut;
use std::io::{Stdin, Stdout};
use std::ops::ControlFlow;

// Takes all records of standard input.
pub fn run(
    stdin: Stdin,
    stdout: Stdout,
    tables: &mut LentTablesMut<'_>,
    curves: &mut [u8],
    words: &mut [u32],
    input: &mut [u8],
    lines: &mut [u8],
) -> Status
    requires { Buffers (held_mut tables.old) curves.old words.old input.old lines.old }
    ensures lent { StaysLent tables.old tables.new }
{
    let mut at = start();
    let mut to: usize = 0;
    // Each turn takes a record or reads a byte; turn 0 is the last.
    for turns in (0..=u64::MAX).rev() {
        at = take_records(at, &input[..to], tables, curves, words, lines);
        match after_records(stdin, stdout, at, to, turns, input, lines) {
            ControlFlow::Continue((next, end)) => {
                at = next;
                to = end;
            }
            ControlFlow::Break(status) => return status,
        }
    }
    Status::NotCounted
}
