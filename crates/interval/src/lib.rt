// Definitions and laws alone: document 02, "Paper 6. How long between rounds". It has no function.
#![tactic(auto)]
