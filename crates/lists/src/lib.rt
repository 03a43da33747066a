// Definitions and laws on lists, tests and loops, for the crates above. There are no functions to call.
#![tactic(auto)]
