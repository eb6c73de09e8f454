// Whole-number division of a shifted significand of 24 digits at most, as those of binary16 and binary32: with its digits 40 places fit a
// word, and the processor divides once for so many. Only crates of this repository call it.
#![tactic(auto)]

ghost use Rattle.std.specs.Prelude.{◌≡◌, ◌^◌, ◌≤◌, ◌<◌};
ghost use Rattle.division.specs.Divided.{divided_of};

use division::Divided;

// a × 2^places by b: the places beyond a multiple of 40 first, then 40 a turn, so that the last turn's quotient alone holds the low bits.
pub fn divide_short(a: u64, b: u64, places: u32) -> Divided
    requires { (a < 2 ^ 24) × (0 < b) × (b ≤ 2 ^ 24) }
    ensures { result ≡ divided_of a b places }
{
    let first = a << (places % 40);
    let mut quotient = first / b;
    let mut rest = first % b;
    for _turn in 0..places / 40 {
        let shifted = rest << 40;
        quotient = shifted / b;
        rest = shifted % b;
    }
    Divided {
        remainder: rest,
        quotient: (quotient % 4294967296) as u32,
    }
}
