// What an operator believes of a board's picture. specs/Believed.antt has the statements; no function is declared here.
#![tactic(auto)]
