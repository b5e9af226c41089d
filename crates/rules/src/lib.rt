// The rules of a setup packet: definitions alone, in specs/Rules.antt.
#![tactic(auto)]
