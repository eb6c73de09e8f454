// The difference of two operands, and of two patterns. Where there is none it is the house NaN.
ghost use Rattle.std.specs.Prelude.{◌≡◌};
ghost use Rattle.std.proofs.Common.{lit≤};
ghost use Rattle.definitions.specs.Class.{infinite, finite};
ghost use Rattle.definitions.specs.Format.{binary64};
ghost use Rattle.definitions.specs.Difference.{difference_class, difference};
ghost use Rattle.operands.specs.Operand.{operand_of, class_in, value_in};
ghost use Rattle.operands.specs.declared.Operand.TheVariants.{Finite};
ghost use Rattle.packing.specs.Stands.{StandsValue};

use crate::values::{Spare, opposite, subtract_values};
use formats::{Binary16, Binary32, Binary64};
use operands::{Operand, Unpacked};
use packing::held::Held;
use packing::pack::{house_operand, pack};
use packing::unpack::unpack;
use shapes::format::Format;

fn from_infinite<F: Format>(negative: bool, y: Held<F>) -> Operand
    ensures { result ≡ operand_of F.format.smallest (difference_class F.format (infinite negative) (class_in F.format.smallest y)) }
{
    match y.operand() {
        Operand::Unsupported | Operand::Nan { .. } => house_operand::<F>(),
        Operand::Infinite(other) => {
            if negative == other {
                return house_operand::<F>();
            }
            Operand::Infinite(negative)
        }
        Operand::Zero(_) | Operand::Finite(_) => Operand::Infinite(negative),
    }
}

fn from_zero<F: Format>(negative: bool, y: Held<F>) -> Operand
    ensures { result ≡ operand_of F.format.smallest (difference_class F.format (finite (record { negative = negative; count = 0 })) (class_in F.format.smallest y)) }
{
    match y.operand() {
        Operand::Unsupported | Operand::Nan { .. } => house_operand::<F>(),
        Operand::Infinite(other) => Operand::Infinite(!other),
        Operand::Zero(other) => {
            if negative == other {
                return Operand::Zero(false);
            }
            Operand::Zero(negative)
        }
        Operand::Finite(value) => Operand::Finite(opposite(value)),
    }
}

fn from_value<F: Spare>(x: Unpacked, y: Held<F>) -> Operand
    requires { StandsValue F.format (Finite x) }
    ensures { result ≡ operand_of F.format.smallest (difference_class F.format (finite (value_in F.format.smallest x)) (class_in F.format.smallest y)) }
{
    match y.operand() {
        Operand::Unsupported | Operand::Nan { .. } => house_operand::<F>(),
        Operand::Infinite(other) => Operand::Infinite(!other),
        Operand::Zero(_) => Operand::Finite(x),
        Operand::Finite(value) => subtract_values::<F>(x, value),
    }
}

// Any two operands.
pub fn subtract_operands<F: Spare>(x: Held<F>, y: Held<F>) -> Operand
    ensures { result ≡ operand_of F.format.smallest (difference_class F.format (class_in F.format.smallest x) (class_in F.format.smallest y)) }
{
    match x.operand() {
        Operand::Unsupported | Operand::Nan { .. } => house_operand::<F>(),
        Operand::Infinite(negative) => from_infinite(negative, y),
        Operand::Zero(negative) => from_zero(negative, y),
        Operand::Finite(value) => from_value(value, y),
    }
}

impl Spare for Binary16 {
    ghost spare = { lit≤ tt };
}

impl Spare for Binary32 {
    ghost spare = { lit≤ tt };
}

impl Spare for Binary64 {
    ghost spare = { lit≤ tt };
}

// Every two patterns of binary64 have a difference; one that is no number is the house NaN.
pub fn difference64(x: u64, y: u64) -> u64
    ensures { result ≡ difference binary64 x y }
{
    let difference = subtract_operands(unpack(Binary64(x)), unpack(Binary64(y)));
    pack(Held::<Binary64>::new(difference)).low
}
