// Definitions and laws that the other crates share: specs/ and proofs/. No code.
#![tactic(auto)]
