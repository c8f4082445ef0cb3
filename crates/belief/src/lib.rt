// What an operator believes of the picture, the order's demand 3: definitions and laws only. specs/Belief.antt is the statement,
// proofs/Demand3.antt the proof; document 02's [4] is specs/Order.antt and proofs/Order.antt.
#![tactic(auto)]
