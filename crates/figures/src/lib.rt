// 01's figures marked P ("Figures to check against"): one table with a single claim over it, in specs/Figures.antt.
#![tactic(auto)]

ghost use Rattle.figures.specs.Figures.{Figures};

// Every figure of the table holds, of the definitions that the public calls are proved to equal.
pub fn proved()
    ensures { Figures }
{}
