// Modes: what one is, its rules, how it is read, its row in the tables. Definitions and laws; the constants of the layout.
#![tactic(auto)]

// The width of a mode's row in the table, and the table's fixed need (specs/Layout.antt).
pub const MODE_WIDTH: usize = 2;

pub const MODES_NEED: usize = 64 * MODE_WIDTH;
