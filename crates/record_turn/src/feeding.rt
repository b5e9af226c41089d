// The bytes that were read, in the lent buffer: room for more of them, and one read.
ghost use Rattle.std.specs.Prelude.{◌≡◌, ◌+◌, ◌≤◌, ◌<◌, length, take, IfOk};
ghost use Rattle.record_turn.specs.Inner.Turns.{RoomMade};

use std::io;
use std::io::{Read, Stdin};

// Where the bytes begin that are not yet taken, and where those end that were read.
#[derive(Clone, Copy)]
pub struct Span {
    pub from: usize,
    pub to: usize,
}

// Makes room behind the bytes that are left. They are moved to the front only where the buffer is full: many small reads cost no more than they have to.
pub fn make_room(input: &mut [u8], from: usize, to: usize) -> Span
    requires { (from ≤ to) × (to ≤ length input.old) × (to < from + length input.old) }
    ensures { RoomMade input.old from to result input.new }
{
    if from == to {
        return Span { from: 0, to: 0 };
    }
    if to < input.len() {
        return Span { from, to };
    }
    input.copy_within(from..to, 0);
    Span {
        from: 0,
        to: to - from,
    }
}

// One read of standard input behind the bytes that are there, which stay: how many bytes came, 0 at the input's end.
pub fn read_more(mut stdin: Stdin, input: &mut [u8], to: usize) -> io::Result<usize>
    requires { to ≤ length input.old }
    ensures kept { take to input.new ≡ take to input.old }
    ensures inside { IfOk result (λ more. to + more ≤ length input.old) }
{
    stdin.read(&mut input[to..])
}
