// What audio packets ask of sound tables, as definitions and laws; specs/ says which.
#![tactic(auto)]
