// No code: demand 3 of what `rows`, `governing` and `bearing` answer, and the table of document 01's "Marked for proof".
#![tactic(auto)]
