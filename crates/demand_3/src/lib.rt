// Demand 3: the guarantee over a whole run, stated in specs/ and proved in proofs/. It has no function.
#![tactic(auto)]
