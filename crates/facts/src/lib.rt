// What a call tells of its operands: the NaN that it is refused for, and whether one of them is denormal.
#![tactic(auto)]

pub mod denormal;
pub mod nan;
pub mod patterns;
