// The difference of two patterns, rounded once, ties to even.
#![tactic(auto)]

pub mod patterns;
pub mod values;
