// Mathematics alone: what an oracle is, by both published rules, and what holds of it. No code.
#![tactic(auto)]
