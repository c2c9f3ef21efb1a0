// Definitions and laws of whole numbers and lists that the other crates cite. It has no function.
#![tactic(auto)]
