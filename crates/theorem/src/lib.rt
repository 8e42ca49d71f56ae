// All that is promised beside the contracts of functions, as one theorem; no code.

#![tactic(auto)]
