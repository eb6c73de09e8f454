// The remainder in one call: truncated, as C's fmod, and nearest, as IEEE 754's remainder, for all four formats.
#![tactic(auto)]

pub mod divided;
pub mod patterns;
