// Laws of loops that count and add up. No function.
#![tactic(auto)]
