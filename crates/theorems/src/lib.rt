#![tactic(auto)]

// Theorems about the definitions, in proofs/. No code.
