// Residues: what one is, its rules, how it is read, its rows in the tables (001, "header decode"; 01, refusals 10, 11 and 13). Definitions and laws; the
// constants of the layout; rule 13, which reader and recogniser judge alike.
#![tactic(auto)]

pub mod head; // the fields before the plan
pub mod fits; // rule 13

// The width of a residue's row in the table of residues, and of its plan in the table of plans; the fixed need of each table (specs/Layout.antt).
pub const HEAD_WIDTH: usize = 6;

pub const PLAN_WIDTH: usize = 512;

pub const RESIDUES_NEED: usize = 64 * HEAD_WIDTH;

pub const PLANS_NEED: usize = 64 * PLAN_WIDTH;
