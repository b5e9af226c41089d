// The numbers of a residue, read from its rows in the tables: `residue` is the residue's number, its rows begin at 6 * residue and 512 * residue. A place
// past a table's end reads as 0. Table and number stay two parameters: no contract asks anything of the number that a struct could say once.
#![tactic(auto)]

ghost use Rattle.std.specs.Prelude.{◌≡◌, ◌+◌, ◌*◌, ◌<◌, get_or};
ghost use Rattle.residue.specs.Inner.Decode.{head_at};
ghost use Rattle.residue.specs.Inner.Heads.{head_of};
ghost use Rattle.residue.specs.Layout.{head_width, plan_width};

use reading::buffers::get;
use residue::head::Head;
use residue::{HEAD_WIDTH, PLAN_WIDTH};

// Number `column` of a residue's row.
fn number(residues: &[u32], residue: u32, column: usize) -> u32
    requires { column < 6 }
    ensures { result ≡ get_or residues.now (head_width * residue + column) 0 }
{
    get(residues, HEAD_WIDTH * residue as usize + column)
}

pub fn kind(residues: &[u32], residue: u32) -> u32
    ensures { result ≡ (head_at residues.now residue).type }
{
    number(residues, residue, 0)
}

pub fn begin(residues: &[u32], residue: u32) -> u32
    ensures { result ≡ (head_at residues.now residue).begin }
{
    number(residues, residue, 1)
}

pub fn end(residues: &[u32], residue: u32) -> u32
    ensures { result ≡ (head_at residues.now residue).end }
{
    number(residues, residue, 2)
}

pub fn size(residues: &[u32], residue: u32) -> u32
    ensures { result ≡ (head_at residues.now residue).size }
{
    number(residues, residue, 3)
}

pub fn classifications(residues: &[u32], residue: u32) -> u32
    ensures { result ≡ (head_at residues.now residue).classifications }
{
    number(residues, residue, 4)
}

pub fn classbook(residues: &[u32], residue: u32) -> u32
    ensures { result ≡ (head_at residues.now residue).classbook }
{
    number(residues, residue, 5)
}

// All six.
pub fn head(residues: &[u32], residue: u32) -> Head
    ensures { head_of result ≡ head_at residues.now residue }
{
    Head {
        kind: kind(residues, residue),
        begin: begin(residues, residue),
        end: end(residues, residue),
        size: size(residues, residue),
        classifications: classifications(residues, residue),
        classbook: classbook(residues, residue),
    }
}

// The place of a class and a pass in a residue's plan: a book's number plus one, or 0 for nothing. No Option: it is the number that the table has.
pub fn plan_place(plans: &[u16], residue: u32, class: u32, pass: u32) -> u16
    ensures { result ≡ get_or plans.now (plan_width * residue + (8 * class + pass)) 0 }
{
    let row = PLAN_WIDTH * residue as usize;
    let place = 8 * class as usize + pass as usize;
    get(plans, row + place)
}
