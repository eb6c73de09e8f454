// The exports of what is told of operands, by value: a refusal writes nothing, so a host asks.
#![tactic(auto)]

pub mod denormal;
pub mod nan;
