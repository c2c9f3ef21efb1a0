// Laws of the table of refusals. No function.
#![tactic(auto)]
