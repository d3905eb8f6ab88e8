// The demands as statements and their proofs: over one call, over cuts and runs, over two results of a contract, and at the edges.
// There is no code here.

#![tactic(auto)]
