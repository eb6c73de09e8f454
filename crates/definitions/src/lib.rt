// The words that the code and the definitions share. Code here only tells numbers: specs/ is what a reader has to believe, and
// specs/Answers.antt gives the number and the values of each case of each answer below.
#![tactic(auto)]

mod numbers;

// Which whole number the quotient is taken as.
#[derive(Clone, Copy, PartialEq, Eq)]
pub enum Kind {
    Truncated,
    Nearest,
}

// Whether the leading digit of a significand is left out of its pattern or stands in it.
#[derive(Clone, Copy, PartialEq, Eq)]
pub enum Layout {
    Hidden,
    Explicit,
}

// A bit pattern of any format, high × 2^64 + low. binary16, binary32 and binary64 fill the low word alone. The high word of an x87
// pattern is its sign and exponent word, and the low one its significand.
#[derive(Clone, Copy)]
pub struct Pattern {
    pub high: u64,
    pub low: u64,
}

// How a rounded value compares with the exact one, in magnitude.
#[derive(Clone, Copy, PartialEq, Eq)]
pub enum Rounding {
    Exact,
    Up,
    Down,
}

// Why a call is refused.
#[derive(Clone, Copy, PartialEq, Eq)]
pub enum Refusal {
    BadLength,
    BadSize,
    Unsupported,
    Nan,
    Infinite,
    ZeroDivisor,
    ZeroSplit,
}

// A refused call, with what is returned as its value: under Nan that NaN, made quiet, and else the house NaN.
#[derive(Clone, Copy)]
pub struct Refused {
    pub why: Refusal,
    pub value: Pattern,
}

// A remainder and its quotient: 31 bits of it in a u32, or in an i32 with the sign of x/y.
#[derive(Clone, Copy)]
pub struct Residue<Q> {
    pub value: Pattern,
    pub quotient: Q,
}

// What a step, or a run of steps, has reached.
#[derive(Clone, Copy)]
pub struct Reached {
    pub value: Pattern,
    pub quotient: u32,
    pub steps: u32,
}

// An unfinished step was partial, and an unfinished run has spent its budget.
#[derive(Clone, Copy)]
pub enum Progress<T> {
    Finished(T),
    Unfinished(T),
}

// A value that was rounded, and how.
#[derive(Clone, Copy)]
pub struct WithRounding<T> {
    pub value: T,
    pub says: Rounding,
}

// A value split into a significand from 1 to below 2 and an exponent.
#[derive(Clone, Copy)]
pub struct Split {
    pub significand: Pattern,
    pub exponent: i32,
}

// What the calls on patterns tell: their answer, and whether an operand as it was given is denormal. Under BadSize that is no.
#[derive(Clone, Copy)]
pub struct Told<T> {
    pub answer: Result<T, Refused>,
    pub denormal: bool,
}
