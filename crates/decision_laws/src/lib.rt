// Laws of document 01's crusaders decision. It has no function.
#![tactic(auto)]
