// Definitions and laws alone: document 02, "Paper 2. Cable runs differ". It has no function.
#![tactic(auto)]
