// The remainder of operands, the same for every format, and the sign that they have together.
ghost use Rattle.std.specs.Prelude.{◌≡◌, ℤ};
ghost use Rattle.definitions.specs.Signed.{negative_class, signed_of};
ghost use Rattle.definitions.specs.Answers.{signed_meaning};
ghost use Rattle.operands.specs.Operand.{class_in};

use definitions::{Kind, Refused, Residue};
use operands::Operand;
use packing::held::Held;
use quotients::with_sign;
use remainder::divided::remainder_of;
use shapes::format::Format;

// Whether an operand has a minus sign; of one that is always refused it is not looked at.
fn is_negative(x: Operand) -> bool
    ensures { (s : ℤ) → result ≡ negative_class (class_in s x) }
{
    match x {
        Operand::Unsupported => false,
        Operand::Nan { .. } => false,
        Operand::Infinite(negative) => negative,
        Operand::Zero(negative) => negative,
        Operand::Finite(value) => value.negative,
    }
}

pub fn signed_of<F: Format>(x: Held<F>, y: Held<F>, kind: Kind) -> Result<Residue<i32>, Refused>
    ensures { signed_meaning result ≡ signed_of F.format kind (class_in F.format.smallest x) (class_in F.format.smallest y) }
{
    let residue = remainder_of(x, y, kind)?;
    let dividend = x.operand();
    let divisor = y.operand();
    let negative = is_negative(dividend) != is_negative(divisor);
    let value = residue.value;
    Ok(Residue {
        value,
        quotient: with_sign(negative, residue.quotient),
    })
}
