// Definitions and laws only: the codewords of a residue in an audio packet, as a tree of requests.
#![tactic(auto)]
