// Scaling by a power of two, and splitting into a significand and an exponent, for all four formats.
#![tactic(auto)]

pub mod scale;
pub mod split;
