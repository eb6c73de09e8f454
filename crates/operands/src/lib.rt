// What a pattern stands for, as every other crate works on it.
#![tactic(auto)]

ghost use Rattle.std.specs.Prelude.{◌≡◌, ◌+◌, ◌<◌, ◌^◌, T, pos, ◌+ℤ◌};
ghost use Rattle.std.specs.Int.Signed.{mag, le_z};
ghost use Rattle.operands.specs.Operand.{normal_of, place_in, divisor_operand};

// A finite value that is not zero: its significand with the leading one at bit 63, and the exponent of that one.
#[derive(Clone, Copy)]
pub struct Unpacked {
    pub negative: bool,
    pub significand: u64,
    pub exponent: i32,
}

#[derive(Clone, Copy)]
pub enum Operand {
    Unsupported,
    // Its sign and its significand, as they are stored.
    Nan { negative: bool, stored: u64 },
    Infinite(bool),
    Zero(bool),
    Finite(Unpacked),
}

pub fn power_of_two(places: u32) -> u64
    requires { places < 64 }
    ensures { result ≡ 2 ^ places }
{
    1u64 << places
}

// The value significand × 2^(exponent − 63), with its leading one brought to bit 63 by the count of leading zeros.
pub fn normalise(negative: bool, significand: u64, exponent: i32) -> Operand
    requires { mag exponent < 2 ^ 20 }
    ensures { result ≡ normal_of negative significand exponent }
{
    if significand == 0 {
        return Operand::Zero(negative);
    }
    let shift = u64::leading_zeros(significand);
    Operand::Finite(Unpacked {
        negative,
        significand: significand << shift,
        exponent: exponent - (shift as i32),
    })
}

// The exponent of bit 63 of a significand whose last bit is `unit` places above the smallest place.
pub fn exponent_at(smallest: i32, unit: u32) -> i32
    requires { (mag smallest < 2 ^ 18) × (unit < 2 ^ 18) }
    ensures { result ≡ smallest +ℤ pos (unit + 63) }
{
    smallest + ((unit + 63) as i32)
}

// How far an exponent lies above the smallest place.
pub fn place_of(exponent: i32, smallest: i32) -> u32
    requires { T (le_z smallest exponent) × (place_in smallest exponent < 2 ^ 20) }
    ensures { result ≡ place_in smallest exponent }
{
    (exponent - smallest) as u32
}

// What an operand is divided by: the finite value that it is, or nothing, as an infinite divisor takes nothing off. A divisor that is
// refused is not looked at.
pub fn divisor_of(y: Operand) -> Option<Unpacked>
    ensures { result ≡ divisor_operand y }
{
    let Operand::Finite(value) = y else {
        return None;
    };
    Some(value)
}
