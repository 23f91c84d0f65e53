// Mathematics alone: the storacle by its rule, and what holds of it. No code.
#![tactic(auto)]
