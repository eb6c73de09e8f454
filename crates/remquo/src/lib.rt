// The remainder in one call, with the sign of its quotient: what C calls remquo, in both kinds, for all four formats.
#![tactic(auto)]

pub mod patterns;
mod signed;
