// Documents written from bulks, and that reading them gives the bulks back: statements and their proofs.
// There is no code here.

#![tactic(auto)]
