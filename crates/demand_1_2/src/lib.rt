// Laws that tie document 01's definitions to the words of the demands. It has no function.
#![tactic(auto)]
