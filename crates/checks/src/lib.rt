// What the checks of the operations come to, and the tests on an operand.
#![tactic(auto)]

pub mod list;
pub mod pair;

ghost use Rattle.std.specs.Prelude.{◌≡◌};
ghost use Rattle.checks.specs.Verdict.{unsupported_operand, nan_operand, infinite_operand, zero_operand};

use operands::Operand;

fn is_unsupported(x: Operand) -> bool
    ensures { result ≡ unsupported_operand x }
{
    matches!(x, Operand::Unsupported)
}

pub fn is_nan(x: Operand) -> bool
    ensures { result ≡ nan_operand x }
{
    matches!(x, Operand::Nan { .. })
}

pub fn is_infinite(x: Operand) -> bool
    ensures { result ≡ infinite_operand x }
{
    matches!(x, Operand::Infinite(_))
}

fn is_zero(x: Operand) -> bool
    ensures { result ≡ zero_operand x }
{
    matches!(x, Operand::Zero(_))
}
