// Mathematics alone: the steps of the backward search, and that they list exactly the occurrences. No code.
#![tactic(auto)]
