// A value scaled by a power of two, the same for every format. Only crates of this repository call it, with values as `unpack` makes them.
#![tactic(auto)]

pub mod power;
pub mod value;
