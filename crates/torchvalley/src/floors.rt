// Floor type 1 of an audio packet, from the values that were read to the curve (004; 01, "Audio order" 3).
ghost use Rattle.std.specs.Prelude.{◌≡◌, length};
ghost use Rattle.floor_points.specs.FinalY as final;
ghost use Rattle.floor_points.specs.FinalY.{final_ys, Multiplies};
ghost use Rattle.floor_curve.specs.Curve as drawing;
ghost use Rattle.floor_curve.specs.Curve.{curve_at, Bytes};
ghost use Rattle.figures.specs.Figures.{Figures};

// Final Y and flags of a floor's X list and the values read for it. True where the lists fit each other; otherwise false, and both outputs are all zero.
// `Figures` is 01's table of figures, those of lengths among them.
pub fn torchvalley_floor_points(
    x: &[u16],
    values: &[u16],
    multiplier: u8,
    y: &mut [u8],
    flags: &mut [u8],
) -> bool
    ensures flags_after { (final.left result y.new flags.new
        ≡ final_ys x.now values.now multiplier (length y.old) (length flags.old))
        × Multiplies multiplier y.new }
    ensures figures { Figures }
{
    floor_points::final_y(x, values, multiplier, y, flags)
}

// The curve's first places, as many as `out` has. True where the lists fit each other; otherwise false, and `out` is all zero.
pub fn torchvalley_floor_curve(
    x: &[u16],
    y: &[u8],
    flags: &[u8],
    multiplier: u8,
    out: &mut [u8],
) -> bool
    ensures { (drawing.left result out.new
        ≡ drawing.curve x.now y.now flags.now multiplier (length out.old))
        × Bytes (curve_at x.now y.now flags.now multiplier) }
{
    floor_curve::curve(x, y, flags, multiplier, out)
}
