// Any number of places, by the reciprocal of b: a first turn, a last one, and between them one power of two modulo b, whose quotient bits
// lie above the low 32 and are not taken. The loop that finds the power is the one loop that a remainder runs, and it divides once a turn.
ghost use Rattle.std.specs.Prelude.{◌≡◌, ◌+◌, ◌*◌, ◌%◌, ◌^◌, ◌<◌, ◌≤◌};
ghost use Rattle.division.specs.Divided.{divided_of};
ghost use Rattle.division.specs.Divisions.{squarings_of, turns_of};

use crate::{Counted, Divided};
use products::{high, low};
use reciprocals::Inverse;

// The product of two words modulo b.
fn multiplied(x: u64, y: u64, b: Inverse) -> u64
    requires { x ≤ b.divisor }
    ensures { result ≡ x * y % b.divisor }
{
    b.divide_words(high(x, y), low(x, y)).remainder
}

// Twice p can pass a word: what p lacks to b stands in for it.
fn doubled(p: u64, b: u64) -> u64
    requires { p < b }
    ensures { result ≡ p * 2 % b }
{
    let lacks = b - p;
    if lacks <= p { p - lacks } else { p + p }
}

// 2^e modulo b: the upper six digits of e as they are, then a squaring for each further one.
fn power_of_two(e: u32, b: Inverse) -> Counted<u64>
    requires { 64 ≤ e }
    ensures power { (result.value ≤ b.divisor) × (result.value % b.divisor ≡ 2 ^ e % b.divisor) }
    ensures divisions { result.divisions ≡ squarings_of e }
{
    let further = 26 - u32::leading_zeros(e);
    let mut power = 1u64 << (e >> further);
    let mut divisions: u32 = 0;
    for digit in (0..further).rev() {
        let square = multiplied(power, power, b);
        power = if (e >> digit) % 2 == 0 {
            square
        } else {
            doubled(square, b.divisor)
        };
        divisions += 1;
    }
    Counted {
        value: power,
        divisions,
    }
}

// The first turn takes the places beyond a multiple of 64, and the last one 64, so that its quotient alone holds the low bits.
pub fn divide_turns(a: u64, b: u64, places: u32) -> Counted<Divided>
    requires { 2 ^ 63 ≤ b }
    ensures divided { result.value ≡ divided_of a b places }
    ensures divisions { result.divisions ≡ 1 + turns_of places }
{
    let inverse = Inverse::new(b);
    let shift = places % 64;
    let first = inverse.divide_words(a / 2 >> (63 - shift), a << shift);
    if places < 64 {
        return Counted {
            value: Divided::from(first),
            divisions: 2,
        };
    }
    let mut rest = first.remainder;
    let mut divisions: u32 = 3;
    if 128 <= places {
        let between = power_of_two(places - shift - 64, inverse);
        rest = multiplied(between.value, rest, inverse);
        divisions += between.divisions + 1;
    }
    Counted {
        value: Divided::from(inverse.divide_word(rest)),
        divisions,
    }
}
