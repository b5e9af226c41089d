// Whether tables that are handed in are the writing-out of residues that meet every rule (01, "What the reader takes and gives").
ghost use Rattle.std.specs.Prelude.{◌≡◌, true, ◌↔◌, ◌*◌, ◌≤◌, length, drop};
ghost use Rattle.reading.specs.Lists.{all};
ghost use Rattle.rules.specs.Rules as Rule;
ghost use Rattle.residue.specs.Inner.FromTable.{books_of};
ghost use Rattle.residue.specs.Inner.Heads.{head_of};
ghost use Rattle.residue_tables.specs.Inner.Recognised.{ValidHead, ValidRows, ResiduesRecognised, OneContent};
ghost use Rattle.residue.specs.Layout.{head_width, plan_width, plans_need};

use reading::zeros::zeros;
use residue::head::Head;
use residue::{HEAD_WIDTH, PLAN_WIDTH, PLANS_NEED, RESIDUES_NEED};

// The places name books that are set up.
fn places_set_up(places: &[u16], book_count: u32) -> bool
    ensures { result ≡ all (λ v. Rule.meets11 (Rule.book_or_none book_count v)) places.now }
{
    places.iter().all(|&place| place as u32 <= book_count)
}

// Whether some residue that meets every rule has these fields before its plan. What is handed in may hold any number as the type.
fn is_head(head: Head, book_count: u32, books: &[u32]) -> bool
    ensures { (result ≡ true) ↔ ValidHead (books_of book_count books.now) (head_of head) }
{
    head.kind <= 2
        && head.begin < 16777216
        && head.end < 16777216
        && 1 <= head.size
        && head.size <= 16777216
        && 1 <= head.classifications
        && head.classifications <= 64
        && head.classbook < book_count
        && residue::fits::head_fits(head, books)
}

// Whether the rows of residue `index` are those of a residue that meets every rule.
fn is_residue(residues: &[u32], plans: &[u16], index: u32, book_count: u32, books: &[u32]) -> bool
    requires { (index ≤ 63) × (plans_need ≤ length plans.now) }
    ensures { (result ≡ true) ↔ ValidRows (books_of book_count books.now) (drop (head_width * index) residues.now)
        (drop (plan_width * index) plans.now) }
{
    let head = residue_row::head(residues, index);
    if !is_head(head, book_count, books) {
        return false;
    }
    let first = PLAN_WIDTH * index as usize;
    let plan = &plans[first..first + PLAN_WIDTH];
    let used = 8 * head.classifications as usize;
    let places = &plan[..used];
    places_set_up(places, book_count)
        && residue::fits::places_fit(places, head.size, books)
        && zeros(plan, used)
}

// Whether the tables are those of `n` residues.
pub fn are_residues(residues: &[u32], plans: &[u16], n: u32, book_count: u32, books: &[u32]) -> bool
    requires { n ≤ 64 }
    ensures variant { (result ≡ true) ↔ ResiduesRecognised (books_of book_count books.now) n residues.now plans.now }
    ensures one_content { OneContent (books_of book_count books.now) n residues.now plans.now }
{
    if residues.len() < RESIDUES_NEED || plans.len() < PLANS_NEED {
        return false;
    }
    for i in 0..n {
        if !is_residue(residues, plans, i, book_count, books) {
            return false;
        }
    }
    zeros(residues, HEAD_WIDTH * n as usize) && zeros(plans, PLAN_WIDTH * n as usize)
}
