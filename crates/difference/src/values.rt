// The difference of two values, the same for every format that leaves spare digits in a word.
ghost use Rattle.std.specs.Prelude.{◌≡◌, ◌+◌, ◌≤◌};
ghost use Rattle.definitions.specs.Difference.{difference_value};
ghost use Rattle.operands.specs.Operand.{operand_of, place_in, value_in};
ghost use Rattle.operands.specs.declared.Operand.TheVariants.{Finite};
ghost use Rattle.packing.specs.Stands.{StandsValue};
ghost use Rattle.difference.specs.Opposite.{opposite_of};

use operands::{Operand, Unpacked, place_of};
use shapes::format::Format;
use sums::rounded::rounded_value;
use sums::words::{SignedWord, odd_cut, subtract};

// A format whose significands leave spare digits in a word.
pub trait Spare: Format {
    ghost spare: { Self.format.precision ≤ 60 };
}

pub fn opposite(value: Unpacked) -> Unpacked
    ensures { result ≡ opposite_of value }
{
    Unpacked {
        negative: !value.negative,
        ..value
    }
}

// x − y, where x is at the place and y lies `gap` places below. Halves leave room for the sum, and the last digit of the lower one
// stands for all that is cut off of it. What is left across such a gap has 62 digits or more, two below a precision of 60, and rounding
// looks at no more.
fn subtract_placed<F: Spare>(x: Unpacked, y: Unpacked, place: u32, gap: u32) -> Operand
    requires { StandsValue F.format (Finite x) × StandsValue F.format (Finite y) × (place ≡ place_in F.format.smallest x.exponent) × (place_in F.format.smallest y.exponent + gap ≡ place) }
    ensures { result ≡ operand_of F.format.smallest (difference_value F.format (value_in F.format.smallest x) (value_in F.format.smallest y)) }
{
    let high = SignedWord {
        negative: x.negative,
        word: x.significand / 2,
    };
    let low = SignedWord {
        negative: y.negative,
        word: odd_cut(y.significand / 2, gap),
    };
    rounded_value::<F>(subtract(high, low), place)
}

// x − y. Where y has the higher place it is taken as −y − −x.
pub fn subtract_values<F: Spare>(x: Unpacked, y: Unpacked) -> Operand
    requires { StandsValue F.format (Finite x) × StandsValue F.format (Finite y) }
    ensures { result ≡ operand_of F.format.smallest (difference_value F.format (value_in F.format.smallest x) (value_in F.format.smallest y)) }
{
    let px = place_of(x.exponent, F::SMALLEST);
    let py = place_of(y.exponent, F::SMALLEST);
    if py <= px {
        return subtract_placed::<F>(x, y, px, px - py);
    }
    subtract_placed::<F>(opposite(y), opposite(x), py, py - px)
}
