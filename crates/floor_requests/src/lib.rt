// Definitions and laws only: floor type 1 in an audio packet as a tree of requests; specs/ says which.
#![tactic(auto)]
