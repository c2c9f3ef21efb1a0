// What the C header says of answers: statements and their theorems. It has no function.
#![tactic(auto)]
