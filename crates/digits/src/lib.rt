#![tactic(auto)]

// Laws of binary digits, for every other crate's proofs. There is no code.
