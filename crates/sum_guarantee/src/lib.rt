// Definitions and laws alone: document 02, "Paper 3. Sums in 32 bits". It has no function.
#![tactic(auto)]
