// Machines that take words, draw by offers and store pixels besides: definitions and laws only (specs/, proofs/). The chip is one such machine.
#![tactic(auto)]
