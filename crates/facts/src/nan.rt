// The NaN that a refusal returns, of operands.
ghost use Rattle.std.specs.Prelude.{◌≡◌};
ghost use Rattle.definitions.specs.Format.{NanStored};
ghost use Rattle.definitions.specs.Facts.{quieted, nan_of, refused_value};
ghost use Rattle.definitions.specs.Answers.{joined, refusal_number};
ghost use Rattle.operands.specs.Operand.{class_in};
ghost use Rattle.facts.specs.Chosen.{chosen_operand};

use definitions::{Pattern, Refusal, Refused};
use operands::Operand;
use packing::held::Held;
use packing::pack::{house_nan, pack};
use shapes::format::{Format, leading_weight};

// Of two operands the NaN, and of two NaNs the one with the larger significand, as it is stored; the dividend's where they are equal.
fn choose(x: Operand, y: Operand) -> Operand
    ensures { result ≡ chosen_operand x y }
{
    let Operand::Nan { stored: s, .. } = x else {
        return y;
    };
    let Operand::Nan { stored: t, .. } = y else {
        return x;
    };
    if s < t { y } else { x }
}

// A NaN's significand with the first digit behind its leading one.
fn quiet<F: Format>(stored: u64) -> u64
    requires { NanStored F.format stored }
    ensures { result ≡ quieted F.format stored }
{
    let digit = leading_weight::<F>() / 2;
    if stored / digit % 2 == 1 {
        stored
    } else {
        stored + digit
    }
}

// The NaN of two operands, made quiet; the house NaN where neither is one.
pub fn nan_of<F: Format>(x: Held<F>, y: Held<F>) -> Pattern
    ensures { joined result ≡ nan_of F.format (class_in F.format.smallest x) (class_in F.format.smallest y) }
{
    let Operand::Nan { negative, stored } = choose(x.operand(), y.operand()) else {
        return house_nan::<F>();
    };
    let made = Operand::Nan {
        negative,
        stored: quiet::<F>(stored),
    };
    pack(Held::<F>::new(made))
}

// A refusal of two operands, with what it returns as its value.
pub fn refused<F: Format>(why: Refusal, x: Held<F>, y: Held<F>) -> Refused
    ensures why { result.why ≡ why }
    ensures value { joined result.value ≡ refused_value F.format (refusal_number why) (class_in F.format.smallest x) (class_in F.format.smallest y) }
{
    let value = if why == Refusal::Nan {
        nan_of(x, y)
    } else {
        house_nan::<F>()
    };
    Refused { why, value }
}
