// Laws of document 01's planner, of its definitions alone. It has no function.
#![tactic(auto)]
