// The exports of scaling and splitting.
#![tactic(auto)]

pub mod scale;
pub mod split;
