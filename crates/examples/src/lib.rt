// Document 01's starred examples, proved over the definitions: specs/Examples.antt is the table, proofs/Examples.antt the proof of its
// one claim. There is no code here.
#![tactic(auto)]
