// Pictures saved and reloaded. specs/Reload.antt has the statements; no function is declared here.
#![tactic(auto)]
