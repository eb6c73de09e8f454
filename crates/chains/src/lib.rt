#![tactic(auto)]

// Laws of the step, the run and lists of calls, for every other crate's proofs. There is no code.
