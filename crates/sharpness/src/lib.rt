// The exact limits of demand 3 are reached: stated in specs/ and proved in proofs/. It has no function.
#![tactic(auto)]
