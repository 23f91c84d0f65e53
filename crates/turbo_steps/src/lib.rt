// Mathematics alone: the steps of the Turbo search, that they list exactly the occurrences, and read each letter twice at most. No code.
#![tactic(auto)]
