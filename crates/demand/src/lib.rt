// Demand 3: what is assembled plays as it should. It has no code.
#![tactic(auto)]
