// The three demands, clause by clause, and the requests, sentence by sentence, as theorems about the outcomes of the entries. No code: what
// is proved elsewhere is cited here.
#![tactic(auto)]
