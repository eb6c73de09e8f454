// The checks of two operands, in the order of the numbers.
ghost use Rattle.std.specs.Prelude.{◌≡◌, ℤ};
ghost use Rattle.definitions.specs.Class.{Class};
ghost use Rattle.definitions.specs.Numbers.{first, dividing};
ghost use Rattle.operands.specs.Operand.{operand_of};
ghost use Rattle.checks.specs.Verdict.{verdict_number};

use crate::{is_infinite, is_nan, is_unsupported, is_zero};
use definitions::Refusal;
use operands::Operand;

// A dividend x and a divisor y: 2, 3, 4 and 5.
pub fn judge_pair(x: Operand, y: Operand) -> Result<(), Refusal>
    ensures { (s : ℤ) (a b : Class) → x ≡ operand_of s a → y ≡ operand_of s b → verdict_number result ≡ first (dividing a b) }
{
    if is_unsupported(x) || is_unsupported(y) {
        return Err(Refusal::Unsupported);
    }
    if is_nan(x) || is_nan(y) {
        return Err(Refusal::Nan);
    }
    if is_infinite(x) {
        return Err(Refusal::Infinite);
    }
    if is_zero(y) {
        return Err(Refusal::ZeroDivisor);
    }
    Ok(())
}
