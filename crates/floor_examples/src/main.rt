// Runs the worked figures of floor 1 (01, "Figures to check against") and writes what comes out, which has to be the file `stdout`. That they hold of the
// definitions is in crate `figures`.
#![tactic(auto)]

use std::io;
use std::io::{Print, Stdout};

// A number in three digits, and a newline.
fn put(out: Stdout, n: u8) -> io::Result<()> {
    let line = [b'0' + n / 100, b'0' + n / 10 % 10, b'0' + n % 10, b'\n'];
    out.write_all(&line)
}

fn put_all(out: Stdout, numbers: &[u8]) -> io::Result<()> {
    for n in numbers {
        put(out, *n)?;
    }
    Ok(())
}

// What a predicted Y value and a value read give, at range 256: the point halfway along a flat line.
fn room(out: Stdout, predicted: u16, value: u16) -> io::Result<()> {
    let x = [0u16, 2, 1];
    let values = [predicted, predicted, value];
    let mut y = [0u8; 3];
    let mut flags = [0u8; 3];
    floor_points::final_y(&x, &values, 1, &mut y, &mut flags);
    put(out, y[2])
}

// The floor of 004: final Y, flags, and the curve, which goes on past the last point.
fn floor(out: Stdout) -> io::Result<()> {
    let x = [0u16, 128, 64, 32, 96, 16, 48, 80, 112];
    let values = [110u16, 20, 9, 89, 0, 49, 19, 60, 19];
    let mut y = [0u8; 9];
    let mut flags = [0u8; 9];
    floor_points::final_y(&x, &values, 1, &mut y, &mut flags);
    put_all(out, &y)?;
    put_all(out, &flags)?;
    let mut curve = [0u8; 136];
    floor_curve::curve(&x, &y, &flags, 1, &mut curve);
    put_all(out, &curve)
}

fn main(rt: HostRuntime) -> io::Result<()> {
    let out = rt.stdout();
    for (predicted, value) in [
        (100, 3),
        (100, 4),
        (100, 199),
        (100, 200),
        (200, 111),
        (200, 112),
    ] {
        room(out, predicted, value)?;
    }
    floor(out)
}
