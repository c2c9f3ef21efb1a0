// Laws of document 01's steps of a round. It has no function.
#![tactic(auto)]
