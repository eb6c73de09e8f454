// Division of many dividends by one divisor, which is prepared once: its reciprocal, and the powers of two modulo it that far dividends
// want. A near dividend then takes one digit, and any other one two, whatever its gap.
// Significands have 53 digits, as all of binary64. Only crates of this repository call these.
#![tactic(auto)]

mod modulus;
pub mod powers;

ghost use Rattle.std.specs.Prelude.{◌≡◌, ◌%◌, ◌^◌, ◌<◌, ◌≤◌};
ghost use Rattle.prepared.specs.Prepared.{slot_of, shown_of};

pub use crate::modulus::{Prepared, REACH};
use crate::powers::{extend, slot};
use division::Divided;
use std::marker::Model;
use std::num::wrapping_add_u64;

// A prepared divisor, and a table of powers of two modulo it with as many as were wanted so far. It is no ArrayVec: that one is filled
// with zeros by `memset`, and the library asks for no such symbol.
#[derive(Drop)]
pub struct WithPowers {
    modulus: Prepared,
    powers: [u64; 36],
    known: usize,
}

// Clauses see the divisor, with its leading one at bit 63.
impl Model for WithPowers {
    ghost use Rattle.std.specs.Prelude.{ℕ, ◌*◌, ◌^◌};
    ghost use Rattle.prepared.specs.Prepared.{Powers};

    ghost Value = { ℕ };

    ghost view = { λ d. d.modulus.significand * 2 ^ 11 };

    ghost invariant = { λ d. Powers d.modulus.significand d.known d.powers };
}

impl WithPowers {
    // b has its leading one at bit 63, and eleven spare bits. The power of no places is 1.
    pub fn new(b: u64) -> Self
        requires { (2 ^ 63 ≤ b) × (b % 2 ^ 11 ≡ 0) }
        ensures { result ≡ b }
    {
        WithPowers {
            modulus: Prepared::new(b),
            powers: [1; 36],
            known: 1,
        }
    }

    // a × 2^places by the divisor, and what is shown of the quotient. a has spare bits too. Now and then the left-over is one divisor too
    // large: that one is taken off by a factor, and not by a branch.
    pub fn divide(&mut self, a: u64, places: u32) -> Divided
        requires { (a % 2 ^ 11 ≡ 0) × (slot_of places < 36) }
        ensures answer { result ≡ shown_of a self.old places }
        ensures divisor { self.new ≡ self.old }
    {
        let m = self.modulus;
        let j = slot(places);
        let left = if j == 0 {
            m.near_digit(a / 2048, places)
        } else {
            self.known = extend(&mut self.powers, self.known, j, m);
            m.far_digit(a / 2048, self.powers[j], places - 58 * (j as u32))
        };
        let rest = left.remainder;
        let over: u64 = if m.significand <= rest { 1 } else { 0 };
        Divided {
            remainder: (rest - m.significand * over) * 2048,
            quotient: (wrapping_add_u64(left.quotient, over) % 8) as u32,
        }
    }
}
