// Scaling of a value, the same for every format.
ghost use Rattle.std.specs.Prelude.{◌≡◌};
ghost use Rattle.definitions.specs.Scale.{scale_value};
ghost use Rattle.operands.specs.Operand.{value_in};
ghost use Rattle.operands.specs.declared.Operand.TheVariants.{Finite};
ghost use Rattle.packing.specs.Stands.{StandsValue};
ghost use Rattle.powers.specs.Scaled.{scaled_of};

use crate::power::{FAR, offset};
use definitions::{Rounding, WithRounding};
use operands::{Operand, Unpacked, exponent_at, normalise, place_of};
use rounding::round_places;
use shapes::format::Format;

// A value that is not zero. Places are counted from FAR below the smallest place, so that none is negative.
pub fn scale_value<F: Format>(value: Unpacked, power: i32) -> WithRounding<Operand>
    requires { StandsValue F.format (Finite value) }
    ensures { result ≡ scaled_of F.format.smallest (scale_value F.format (value_in F.format.smallest value) power) }
{
    let low = FAR as u32;
    let place = place_of(value.exponent, F::SMALLEST) + offset(power);
    if place_of(F::BIAS as i32, F::SMALLEST) + low < place {
        return WithRounding {
            value: Operand::Infinite(value.negative),
            says: Rounding::Up,
        };
    }
    if low + 63 <= place {
        let exponent = exponent_at(F::SMALLEST, place - (low + 63));
        return WithRounding {
            value: normalise(value.negative, value.significand, exponent),
            says: Rounding::Exact,
        };
    }
    let rounded = round_places(value.significand, low + 63 - place);
    let says = rounded.says;
    WithRounding {
        value: normalise(value.negative, rounded.value, exponent_at(F::SMALLEST, 0)),
        says,
    }
}
