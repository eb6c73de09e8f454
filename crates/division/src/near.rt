// Below 64 places, for significands that end in eleven zeros: all of binary16, binary32 and binary64. The eleven bits are spare, so a
// digit of the quotient need not be right, only near, and half a reciprocal is enough.
ghost use Rattle.std.specs.Prelude.{◌≡◌, ◌+◌, ◌*◌, ◌%◌, ◌^◌, ◌<◌, ◌≤◌};
ghost use Rattle.division.specs.Divided.{divided_of};

use crate::Divided;
use products::{high, low};
use reciprocals::{Quotient, upper_half};
use std::num::{wrapping_add_u64, wrapping_sub_u64};

// Half a reciprocal is 2^85 / m.
const REACH: u32 = 21;

// n × 2^shift in divisors m, and what is left, which may be one divisor more than it should. x is 2^(64 + reach) / m, cut; the bits of n that
// are spare are filled first, so that none of the product is lost.
pub fn digit(n: u64, spare: u32, shift: u32, m: u64, x: u64, reach: u32) -> Quotient
    requires { (n * 2 ^ spare < 2 ^ 64) × (shift ≤ reach + spare) × (reach + spare < 64) × (n * 2 ^ shift ≤ 2 ^ (64 + reach)) × (x * m ≤ 2 ^ (64 + reach)) × (2 ^ (64 + reach) ≤ x * m + m) × (m < 2 ^ 53) }
    ensures { (result.quotient * m + result.remainder ≡ n * 2 ^ shift) × (result.remainder < m + m) }
{
    let quotient = high(n << spare, x) >> (reach + spare - shift);
    Quotient {
        quotient,
        remainder: wrapping_sub_u64(n << shift, low(quotient, m)),
    }
}

// Half a reciprocal, two digits of at most 32 places, and one correction for both.
pub fn divide_near(a: u64, b: u64, places: u32) -> Divided
    requires { (2 ^ 63 ≤ b) × (a % 2 ^ 11 ≡ 0) × (b % 2 ^ 11 ≡ 0) × (places < 64) }
    ensures { result ≡ divided_of a b places }
{
    let x = upper_half(b).quotient + 4294967296;
    let m = b / 2048;
    let upper = if places < 32 { places } else { 32 };
    let lower = places - upper;
    let first = digit(a / 2048, 11, upper, m, x, REACH);
    let last = digit(first.remainder, 10, lower, m, x, REACH);
    let rest = last.remainder;
    let quotient = wrapping_add_u64(first.quotient << lower, last.quotient);
    if m <= rest {
        Divided {
            remainder: (rest - m) * 2048,
            quotient: (wrapping_add_u64(quotient, 1) % 4294967296) as u32,
        }
    } else {
        Divided {
            remainder: rest * 2048,
            quotient: (quotient % 4294967296) as u32,
        }
    }
}
