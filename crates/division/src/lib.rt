// Whole-number division of a shifted word: everything above divides with these functions, and this crate counts how often it divides.
// Only crates of this repository call them, with a divisor whose leading one is at bit 63.
//
//     b ends in as many zeros as there are places     once     one division
//     both end in eleven zeros, below 64 places       near     a reciprocal, two digits
//     anything else                                   turns    a reciprocal, a first and a last turn, a power between them
#![tactic(auto)]

pub mod near;
pub mod turns;

ghost use Rattle.std.specs.Prelude.{◌≡◌, ◌%◌, ◌^◌, ◌≤◌};
ghost use Rattle.division.specs.Divided.{divided_of, low_of};
ghost use Rattle.division.specs.Divisions.{near_of, divisions_of};

use crate::near::divide_near;
use crate::turns::divide_turns;
use reciprocals::Quotient;

#[derive(Clone, Copy)]
pub struct Divided {
    pub remainder: u64,
    pub quotient: u32,
}

// The low bits of a whole quotient.
impl From<Quotient> for Divided {
    ghost from_gives = { λ q d. d ≡ low_of q };

    fn from(whole: Quotient) -> Divided {
        Divided {
            remainder: whole.remainder,
            quotient: (whole.quotient % 4294967296) as u32,
        }
    }
}

// What was found, with the divisions by b. The making of its reciprocal is one.
#[derive(Clone, Copy)]
pub struct Counted<T> {
    pub value: T,
    pub divisions: u32,
}

// b's last zeros make room for as many places.
pub fn divide_once(a: u64, b: u64, places: u32) -> Divided
    requires { (2 ^ 63 ≤ b) × (b % 2 ^ places ≡ 0) }
    ensures { result ≡ divided_of a b places }
{
    let divisor = b >> places;
    Divided {
        remainder: a % divisor << places,
        quotient: (a / divisor % 4294967296) as u32,
    }
}

// Whether the places are few, and there are eleven spare bits.
fn is_near(a: u64, b: u64, places: u32) -> bool
    ensures { result ≡ near_of a b places }
{
    places < 64 && a % 2048 == 0 && b % 2048 == 0
}

// a × 2^places by b: what is left, the quotient's low 32 bits, and how many divisions it took.
pub fn divide_counted(a: u64, b: u64, places: u32) -> Counted<Divided>
    requires { 2 ^ 63 ≤ b }
    ensures divided { result.value ≡ divided_of a b places }
    ensures divisions { result.divisions ≡ divisions_of a b places }
{
    if places <= u64::trailing_zeros(b) {
        return Counted {
            value: divide_once(a, b, places),
            divisions: 1,
        };
    }
    if is_near(a, b, places) {
        return Counted {
            value: divide_near(a, b, places),
            divisions: 3,
        };
    }
    divide_turns(a, b, places)
}

pub fn divide(a: u64, b: u64, places: u32) -> Divided
    requires { 2 ^ 63 ≤ b }
    ensures { result ≡ divided_of a b places }
{
    divide_counted(a, b, places).value
}
