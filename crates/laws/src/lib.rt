#![tactic(auto)]

// Laws of the definitions, in proofs/. No code.
