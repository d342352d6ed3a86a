// No code: what is read over the tables of a description is what the description gives.
#![tactic(auto)]
