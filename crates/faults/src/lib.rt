// Where a refused file is broken, and how far it is right. No code: what loading tells is shown to be just that place.
#![tactic(auto)]
