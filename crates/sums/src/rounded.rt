// A word rounded once to the precision of a format.
ghost use Rattle.std.specs.Prelude.{◌≡◌, ℕ, ◌+◌, ◌*◌, ◌<◌, ◌≤◌, ◌^◌, pos, ◌+ℤ◌};
ghost use Rattle.std.specs.Int.Signed.{mag};
ghost use Rattle.std.specs.Float.Ieee.{size};
ghost use Rattle.definitions.specs.Difference.{rounded_to, limited};
ghost use Rattle.operands.specs.Operand.{operand_of};
ghost use Rattle.operands.specs.declared.Operand.TheVariants.{Finite};
ghost use Rattle.sums.specs.Limit.{limit_of};

use crate::words::SignedWord;
use operands::{Operand, Unpacked, normalise};
use rounding::round_places;
use shapes::format::Format;

// The exponent that lies some places above the smallest place.
fn exponent_above(smallest: i32, places: u32) -> i32
    requires { (mag smallest < 2 ^ 18) × (places < 2 ^ 18) }
    ensures { result ≡ smallest +ℤ pos places }
{
    smallest + (places as i32)
}

// An exponent above the bias gives an infinity.
fn limit(value: Unpacked, bias: u32) -> Operand
    requires { (mag value.exponent < 2 ^ 21) × (bias < 2 ^ 18) }
    ensures { result ≡ limit_of bias (Finite value) }
{
    if (bias as i32) < value.exponent {
        return Operand::Infinite(value.negative);
    }
    Operand::Finite(value)
}

// The value x × 2^(place − 62), counted from the smallest place. Its leading one is brought to bit 63, so that what lies below the
// precision is always the same number of places.
pub fn rounded_value<F: Format>(x: SignedWord, place: u32) -> Operand
    requires { (0 < x.word → 63 ≤ size x.word + place) × (place < 2 ^ 17) }
    ensures { (c : ℕ) → rounded_to F.format.precision x.word * 2 ^ place ≡ c * 2 ^ 62 → result ≡ operand_of F.format.smallest (limited F.format x.negative c) }
{
    if x.word == 0 {
        return Operand::Zero(x.negative);
    }
    let shift = x.word.leading_zeros();
    let exponent = exponent_above(F::SMALLEST, place + 65 - (shift + F::PRECISION));
    let rounded = round_places(x.word << shift, 64 - F::PRECISION);
    let operand = normalise(x.negative, rounded.value, exponent);
    let Operand::Finite(value) = operand else {
        return operand;
    };
    limit(value, F::BIAS)
}
