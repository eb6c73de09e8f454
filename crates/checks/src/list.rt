// The checks of a list's divisor, in the order of the numbers.
ghost use Rattle.std.specs.Prelude.{◌≡◌, ℤ};
ghost use Rattle.definitions.specs.Class.{Class};
ghost use Rattle.definitions.specs.Numbers.{first};
ghost use Rattle.definitions.specs.Fold.{dividing_list};
ghost use Rattle.operands.specs.Operand.{operand_of};
ghost use Rattle.checks.specs.Verdict.{verdict_number};

use crate::{is_nan, is_zero};
use definitions::Refusal;
use operands::Operand;

// The divisor of a whole list: 3 and 5.
pub fn judge_divisor(y: Operand) -> Result<(), Refusal>
    ensures { (s : ℤ) (b : Class) → y ≡ operand_of s b → verdict_number result ≡ first (dividing_list b) }
{
    if is_nan(y) {
        return Err(Refusal::Nan);
    }
    if is_zero(y) {
        return Err(Refusal::ZeroDivisor);
    }
    Ok(())
}
