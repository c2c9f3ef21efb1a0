// Laws of the answer sheet that is read back. It has no function.
#![tactic(auto)]
