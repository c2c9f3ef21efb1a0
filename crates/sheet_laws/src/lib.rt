// Laws of document 01's round sheet, answer sheet and refusals that the other crates cite. It has no function.
#![tactic(auto)]
