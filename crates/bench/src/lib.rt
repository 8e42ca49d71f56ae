// Document 01, "Bench scan", and requests W1 and W4: the bench table and scan, rows H1 to H12, the listed line, rows of scan bias and of the
// interpolation; and lists that demand 3 is seen to hold of; no code.

#![tactic(auto)]
