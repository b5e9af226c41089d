// When the setup call gives 7 or 8 for a book, and a packet that it accepts, as definitions and laws; specs/ says which.
#![tactic(auto)]
