// Division of two words by one without a division: by the divisor's reciprocal, which is found once. Two products guess the quotient, and
// what the guess leaves tells how to mend it (Möller and Granlund, "Improved division by invariant integers", 2011).
// Everywhere d is the divisor, with its leading one at bit 63. Only crates of this repository call these, with such a divisor and its reciprocal.
#![tactic(auto)]

ghost use Rattle.std.specs.Prelude.{◌≡◌, ℕ, ◌+◌, ◌-◌, ◌*◌, ◌^◌, ◌<◌, ◌≤◌};
ghost use Rattle.reciprocals.specs.Reciprocal.{quotient_of, reciprocal_of, upper_of, Guess};

use products::{high, low};
use std::num::{wrapping_add_u64, wrapping_sub_u64};

#[derive(Clone, Copy)]
pub struct Quotient {
    pub quotient: u64,
    pub remainder: u64,
}

// A guessed quotient, mended: `whole` may be one or two too small. `rest` is what is left below one divisor more than `whole`. Where that
// one is too many the rest has wrapped, and shows it by passing the fraction that was cut off the guess.
fn corrected(whole: u64, fraction: u64, rest: u64, d: u64) -> Quotient
    ensures { (n : ℕ) → Guess (2 ^ 64) n d whole fraction rest → result ≡ quotient_of n d }
{
    let mut quotient = wrapping_add_u64(whole, 1);
    let mut remainder = rest;
    if fraction < rest {
        quotient = whole;
        remainder = wrapping_add_u64(rest, d);
    }
    if d <= remainder {
        quotient = wrapping_add_u64(quotient, 1);
        remainder = remainder - d;
    }
    Quotient {
        quotient,
        remainder,
    }
}

// hi × 2^32 + lo by d. x is the upper half of the reciprocal, with its leading one.
fn divide_half(hi: u64, lo: u64, d: u64, x: u64) -> Quotient
    requires { (hi < d) × (lo < 2 ^ 32) × (2 ^ 63 ≤ d) × (x ≡ 2 ^ 32 + upper_of d) }
    ensures { result ≡ quotient_of (hi * 2 ^ 32 + lo) d }
{
    let fraction = wrapping_add_u64(low(hi, x), lo);
    let mut whole = high(hi, x);
    if fraction < lo {
        whole = whole + 1;
    }
    let rest = wrapping_sub_u64((hi << 32) + lo, low(wrapping_add_u64(whole, 1), d));
    corrected(whole, fraction, rest, d)
}

// 2^96 - 1 less 2^32 divisors, by d: the upper half of the reciprocal, and what is left for its lower one. The processor divides by the
// upper 33 bits of d alone, and the quotient is then right or one too large.
pub fn upper_half(d: u64) -> Quotient
    requires { 2 ^ 63 ≤ d }
    ensures { result ≡ quotient_of (2 ^ 96 - 1 - 2 ^ 32 * d) d }
{
    let lacks = 18446744073709551615 - d;
    let top = lacks + lacks + 1;
    let upper = d / 2147483648;
    let lower = d % 2147483648;
    let guess = top / upper;
    let left = top % upper * 2147483648 + 2147483647;
    let taken = guess * lower;
    if left < taken {
        Quotient {
            quotient: guess - 1,
            remainder: d - (taken - left),
        }
    } else {
        Quotient {
            quotient: guess,
            remainder: left - taken,
        }
    }
}

// (2^128 - 1) / d without its leading one: the upper half by the one division that the processor makes, the lower half by products.
pub fn reciprocal(d: u64) -> u64
    requires { 2 ^ 63 ≤ d }
    ensures { result ≡ reciprocal_of d }
{
    let upper = upper_half(d);
    let lower = divide_half(upper.remainder, 4294967295, d, upper.quotient + 4294967296);
    upper.quotient * 4294967296 + lower.quotient
}

// A divisor with its reciprocal.
#[derive(Clone, Copy)]
pub struct Inverse {
    pub divisor: u64,
    pub reciprocal: u64,
    pub ghost top: { 2 ^ 63 ≤ divisor },
    pub ghost word: { divisor < 2 ^ 64 },
    pub ghost is: { reciprocal ≡ reciprocal_of divisor },
}

impl Inverse {
    pub fn new(d: u64) -> Self
        requires { 2 ^ 63 ≤ d }
        ensures { result.divisor ≡ d }
    {
        Inverse {
            divisor: d,
            reciprocal: reciprocal(d),
        }
    }

    // hi × 2^64 + lo by the divisor.
    pub fn divide_words(self, hi: u64, lo: u64) -> Quotient
        requires { hi < self.divisor }
        ensures { result ≡ quotient_of (hi * 2 ^ 64 + lo) self.divisor }
    {
        let d = self.divisor;
        let v = self.reciprocal;
        let fraction = wrapping_add_u64(low(hi, v), lo);
        let mut whole = high(hi, v) + hi;
        if fraction < lo {
            whole = whole + 1;
        }
        let rest = wrapping_sub_u64(lo, low(wrapping_add_u64(whole, 1), d));
        corrected(whole, fraction, rest, d)
    }

    // hi × 2^64 by the divisor. With nothing in the lower word the guess is at most one too small, and one correction is enough.
    pub fn divide_word(self, hi: u64) -> Quotient
        requires { hi < self.divisor }
        ensures { result ≡ quotient_of (hi * 2 ^ 64) self.divisor }
    {
        let d = self.divisor;
        let v = self.reciprocal;
        let fraction = low(hi, v);
        let whole = high(hi, v) + hi;
        let next = wrapping_add_u64(whole, 1);
        let rest = wrapping_sub_u64(0, low(next, d));
        if fraction < rest {
            Quotient {
                quotient: whole,
                remainder: wrapping_add_u64(rest, d),
            }
        } else {
            Quotient {
                quotient: next,
                remainder: rest,
            }
        }
    }
}
