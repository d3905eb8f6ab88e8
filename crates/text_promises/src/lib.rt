// The demands read over texts of documents, as statements and their proofs, and the wrong readers that they shut out. There is no code here.

#![tactic(auto)]
