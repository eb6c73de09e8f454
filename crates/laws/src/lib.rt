#![tactic(auto)]

// Laws of formats, stated once over the format, for every other crate's proofs. There is no code.
