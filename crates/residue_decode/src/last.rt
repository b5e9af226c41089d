// The last pass of a residue that reads anything. Most residues have a book in the first few passes only.
ghost use Rattle.std.specs.Prelude.{◌≤◌};
ghost use Rattle.residue_decode.specs.Inner.Parts.{LastPass};

// The last pass that has a book for one of so many classes; 0 where none has.
pub fn last_pass(plans: &[u16], residue: u32, classes: u32) -> u32
    requires { classes ≤ 64 }
    ensures { LastPass plans.now residue classes result }
{
    let mut last: u32 = 0;
    for place in 0..8 * classes {
        let pass = place % 8;
        if residue_row::plan_place(plans, residue, place / 8, pass) != 0 {
            last = last.max(pass);
        }
    }
    last
}
