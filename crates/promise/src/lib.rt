// Demand 3 and the restart law: what holds for every list of feeds; no code.

#![tactic(auto)]
