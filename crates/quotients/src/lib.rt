// What an answer tells of a quotient: its low bits, and a sign.
#![tactic(auto)]

ghost use Rattle.std.specs.Prelude.{◌≡◌, ◌*◌, ◌%◌, ◌^◌, ◌<◌};
ghost use Rattle.definitions.specs.Class.{signed};
ghost use Rattle.definitions.specs.Remainder.{quotient_modulus, quotient_bits, shown};

// How many quotients an answer tells apart, and how many are shown where there is one byte or one digit for them.
const QUOTIENT_MODULUS: u32 = 2147483648;

const SHOWN_MODULUS: u32 = 8;

pub fn quotient_bits(quotient: u32) -> u32
    ensures { result ≡ quotient_bits quotient }
{
    quotient % QUOTIENT_MODULUS
}

pub fn shown_bits(quotient: u32) -> u8
    ensures { result ≡ shown quotient }
{
    (quotient % SHOWN_MODULUS) as u8
}

// The low 32 bits of a quotient part that ends in so many zeros.
pub fn shifted(quotient: u32, places: u32) -> u32
    ensures { result ≡ quotient * 2 ^ places % 2 ^ 32 }
{
    if 32 <= places { 0 } else { quotient << places }
}

// Quotient bits with the sign of x/y. Only crates of this repository call it, with bits that are told.
pub fn with_sign(negative: bool, quotient: u32) -> i32
    requires { quotient < quotient_modulus }
    ensures { result ≡ signed negative quotient }
{
    let magnitude = quotient as i32;
    if negative { -magnitude } else { magnitude }
}
