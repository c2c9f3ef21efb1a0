// Estimates and means lie among the numbers that they are of, so 32 bits hold a round. It has no function.
#![tactic(auto)]
