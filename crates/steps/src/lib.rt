// The step and the budgeted run of two x87 patterns, of every bit pattern.
#![tactic(auto)]

pub mod call;
pub mod patterns;
