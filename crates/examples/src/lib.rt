// The worked examples of 01 that are marked P, as one table over the definitions. No code.
#![tactic(auto)]
