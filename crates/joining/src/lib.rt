// A text cut between two of its documents: each part, read by itself, gives its documents. Statements and their proofs.
// There is no code here.

#![tactic(auto)]
