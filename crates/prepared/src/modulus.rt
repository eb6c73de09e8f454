// A divisor of 53 digits with its reciprocal, and what is found by it: the digits of a quotient, and a power of two from the one before it.
ghost use Rattle.std.specs.Prelude.{◌≡◌, ℕ, ◌+◌, ◌*◌, ◌%◌, ◌^◌, ◌<◌, ◌≤◌};
ghost use Rattle.prepared.specs.Prepared.{Shows};

use division::near::digit;
use products::{high, low};
use reciprocals::{Quotient, reciprocal};

// The reciprocal is 2^(64 + REACH) / m.
pub const REACH: u32 = 52;

// 2^52.
const UNIT: u64 = 4503599627370496;

// A divisor's significand m, and 2^116 / m, cut; one less where m divides it.
#[derive(Clone, Copy)]
pub struct Prepared {
    pub significand: u64,
    pub reciprocal: u64,
    pub ghost top: { 2 ^ 52 ≤ significand },
    pub ghost word: { significand < 2 ^ 53 },
    pub ghost below: { reciprocal * significand ≤ 2 ^ 116 },
    pub ghost above: { 2 ^ 116 ≤ reciprocal * significand + significand },
}

impl Prepared {
    // b has its leading one at bit 63, and eleven spare bits. `reciprocal` leaves 2^64 out; half of the whole is m's, and so 2^63 comes back.
    pub fn new(b: u64) -> Self
        requires { (2 ^ 63 ≤ b) × (b % 2 ^ 11 ≡ 0) }
        ensures { result.significand * 2 ^ 11 ≡ b }
    {
        Prepared {
            significand: b / 2048,
            reciprocal: 9223372036854775808 + reciprocal(b) / 2,
        }
    }

    // a × 2^shift.
    pub(crate) fn near_digit(self, a: u64, shift: u32) -> Quotient
        requires { (a < 2 ^ 53) × (shift ≤ 61) }
        ensures { (result.quotient * self.significand + result.remainder ≡ a * 2 ^ shift) × (result.remainder < self.significand + self.significand) }
    {
        digit(a, 11, shift, self.significand, self.reciprocal, REACH)
    }

    // a × n × 2^shift, where `power` stands for n: both leave the same modulo m. What that loses of the quotient is a multiple of 2^shift, and
    // so of 8. What the first digit leaves has 55 digits at most.
    pub(crate) fn far_digit(self, a: u64, power: u64, shift: u32) -> Quotient
        requires { (a < 2 ^ 53) × (power < 2 ^ 54) × (3 ≤ shift) × (shift ≤ 61) }
        ensures { ((n : ℕ) → n % self.significand ≡ power % self.significand → Shows (a * n * 2 ^ shift) self.significand result.quotient result.remainder) × (result.remainder < self.significand + self.significand) }
    {
        let lower = low(a, power);
        let upper = high(a, power) * 4096 + lower / UNIT;
        let first = digit(upper, 0, 52, self.significand, self.reciprocal, REACH);
        let rest = first.remainder + lower % UNIT;
        digit(rest, 9, shift, self.significand, self.reciprocal, REACH)
    }

    // 58 places more.
    pub(crate) fn next_power(self, power: u64) -> u64
        requires { power < self.significand + self.significand }
        ensures { (result < self.significand + self.significand) × (result % self.significand ≡ power * 2 ^ 58 % self.significand) }
    {
        digit(power, 10, 58, self.significand, self.reciprocal, REACH).remainder
    }
}
