// Laws only: readings stored in a list of marks and a list of values, one after the other.
#![tactic(auto)]
