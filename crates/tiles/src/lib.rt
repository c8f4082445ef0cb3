// Tiles of four by four beside rows one after the other. specs/Tiles.antt has the statements; no function is declared here.
#![tactic(auto)]
