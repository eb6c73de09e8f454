// From an operand to its pattern. Only crates of this repository call these, with operands that stand for values of the format.
ghost use Rattle.std.specs.Prelude.{◌≡◌, ◌+◌, ◌*◌, ◌≤◌, ◌<◌};
ghost use Rattle.definitions.specs.Format.{pattern_of, top_field, field_weight, magnitude, house_nan, house, quiet, infinity, leading};
ghost use Rattle.definitions.specs.Answers.{joined};
ghost use Rattle.operands.specs.Operand.{operand_of, class_in, value_in};
ghost use Rattle.operands.specs.declared.Operand.TheVariants.{Finite};
ghost use Rattle.packing.specs.Trimmed.{trimmed_of};
ghost use Rattle.packing.specs.Stands.{Stands, StandsValue};

use crate::held::Held;
use definitions::Pattern;
use operands::{Operand, Unpacked, place_of};
use shapes::fields::{Fields, pattern_of};
use shapes::format::{Format, hidden_part, leading_weight, top_field};

// The leading digits of a value, as many as the precision, and how many lie below them.
#[derive(Clone, Copy)]
pub struct Trimmed {
    pub dropped: u32,
    pub significand: u64,
}

fn trim<F: Format>(value: Unpacked) -> Trimmed
    requires { StandsValue F.format (Finite value) }
    ensures { result ≡ trimmed_of F.format.precision (value_in F.format.smallest value).count }
{
    let place = place_of(value.exponent, F::SMALLEST);
    let kept = place.min(F::PRECISION - 1);
    Trimmed {
        dropped: place - kept,
        significand: value.significand >> (63 - kept),
    }
}

// A value without its leading digit has dropped none, and its field is 0.
fn value_fields<F: Format>(value: Unpacked) -> Fields
    requires { StandsValue F.format (Finite value) }
    ensures { (result.negative ≡ value.negative) × (result.field ≤ top_field F.format) × (result.stored < field_weight F.format) × (result.field * field_weight F.format + result.stored ≡ magnitude F.format (value_in F.format.smallest value).count) }
{
    let kept = trim::<F>(value);
    let negative = value.negative;
    if kept.significand < leading_weight::<F>() {
        Fields {
            negative,
            field: 0,
            stored: kept.significand,
        }
    } else {
        Fields {
            negative,
            field: (kept.dropped as u64) + 1,
            stored: kept.significand - hidden_part::<F>(),
        }
    }
}

// The stored significand of an infinity.
fn infinity_stored<F: Format>() -> u64
    ensures { result ≡ infinity F.format.layout (leading F.format) }
{
    leading_weight::<F>() - hidden_part::<F>()
}

// That of the house NaN, which has the digit below the leading one too.
fn house_stored<F: Format>() -> u64
    ensures { result ≡ quiet F.format.layout (leading F.format) }
{
    infinity_stored::<F>() + leading_weight::<F>() / 2
}

// The house NaN, as an operand and as a pattern.
pub fn house_operand<F: Format>() -> Operand
    ensures { result ≡ operand_of F.format.smallest (house F.format) }
{
    Operand::Nan {
        negative: false,
        stored: house_stored::<F>(),
    }
}

pub fn house_nan<F: Format>() -> Pattern
    ensures { joined result ≡ house_nan F.format }
{
    let fields = Fields {
        negative: false,
        field: top_field::<F>(),
        stored: house_stored::<F>(),
    };
    pattern_of::<F>(fields)
}

// The pattern of an operand that stands for a value of the format.
pub fn pack<F: Format>(held: Held<F>) -> Pattern
    ensures { joined result ≡ pattern_of F.format (class_in F.format.smallest held) }
{
    match held.operand() {
        Operand::Unsupported => house_nan::<F>(),
        Operand::Nan { negative, stored } => {
            let fields = Fields {
                negative,
                field: top_field::<F>(),
                stored,
            };
            pattern_of::<F>(fields)
        }
        Operand::Infinite(negative) => {
            let fields = Fields {
                negative,
                field: top_field::<F>(),
                stored: infinity_stored::<F>(),
            };
            pattern_of::<F>(fields)
        }
        Operand::Zero(negative) => {
            let fields = Fields {
                negative,
                field: 0,
                stored: 0,
            };
            pattern_of::<F>(fields)
        }
        Operand::Finite(value) => pattern_of::<F>(value_fields::<F>(value)),
    }
}
