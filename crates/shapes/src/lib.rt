// A format, by the type of its patterns, and a pattern as its sign, its exponent field and its stored significand.
#![tactic(auto)]

pub mod fields;
pub mod format;
