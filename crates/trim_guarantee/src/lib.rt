// Definitions and laws alone: document 02, "Paper 5. Trimming rules". It has no function.
#![tactic(auto)]
