// From a pattern to what it stands for.
ghost use Rattle.std.specs.Prelude.{◌≡◌};
ghost use Rattle.definitions.specs.Format.{class_of};
ghost use Rattle.operands.specs.Operand.{operand_of};

use crate::held::Held;
use operands::{Operand, exponent_at, normalise};
use shapes::fields::fields_of;
use shapes::format::{Format, hidden_part, leading_weight, top_field};

// What a pattern stands for. Field 0 may have a leading digit or none, and every other one has it.
fn operand_of<F: Format>(pattern: F) -> Operand
    ensures { result ≡ operand_of F.format.smallest (class_of F.format (F.bits pattern)) }
{
    let fields = fields_of(pattern);
    let negative = fields.negative;
    let field = fields.field;
    let leading = leading_weight::<F>();
    if field == 0 {
        return normalise(negative, fields.stored, exponent_at(F::SMALLEST, 0));
    }
    let significand = hidden_part::<F>() + fields.stored;
    if significand < leading {
        return Operand::Unsupported;
    }
    if field == top_field::<F>() {
        if significand == leading {
            return Operand::Infinite(negative);
        }
        return Operand::Nan {
            negative,
            stored: fields.stored,
        };
    }
    normalise(
        negative,
        significand,
        exponent_at(F::SMALLEST, (field - 1) as u32),
    )
}

pub fn unpack<F: Format>(pattern: F) -> Held<F>
    ensures { result ≡ operand_of F.format.smallest (class_of F.format (F.bits pattern)) }
{
    Held::new(operand_of(pattern))
}
