// Patterns taken apart and put together, for every format of one word of significand. All formats meet in `Operand`, so everything above
// is written once.
#![tactic(auto)]

pub mod held;
pub mod pack;
pub mod unpack;
