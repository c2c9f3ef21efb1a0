// What holds of a replay: it is the run of demand 3. Stated in specs/ and proved in proofs/; it has no function.
#![tactic(auto)]
