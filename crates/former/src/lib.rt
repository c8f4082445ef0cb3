// The card as it was before request [12], and that it drew what today's draws. specs/ has the statements; no function is declared here.
#![tactic(auto)]
