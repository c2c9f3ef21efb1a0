// Statements and their theorems alone: document 02, "Paper 7. Fall back to the direct sheet". It has no function.
#![tactic(auto)]
