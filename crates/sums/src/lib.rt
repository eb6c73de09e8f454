// Two words brought to one place and subtracted, and a word rounded to the precision of a format: what a sum of values is made of.
#![tactic(auto)]

pub mod rounded;
pub mod words;
