// What the whole promises, as theorems about what the public functions answer: definitions and proofs only.
#![tactic(auto)]
