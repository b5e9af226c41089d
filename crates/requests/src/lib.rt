// Definitions and laws only: reading an audio packet as a tree of requests, and what a run of it gives before a cut; specs/ says which.
#![tactic(auto)]
