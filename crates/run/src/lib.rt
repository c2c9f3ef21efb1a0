// The run of document 01, written out as definitions, with the laws of one round. It has no function.
#![tactic(auto)]
