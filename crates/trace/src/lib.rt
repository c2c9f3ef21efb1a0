// Document 02's trace, its replay and the text of a replay as definitions. It has no function.
#![tactic(auto)]
