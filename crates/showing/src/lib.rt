// No code: which candidates of a pair are shown as rows, and what holds of them.
#![tactic(auto)]
