// The remainder of two finite values that are not zero. Everything is done on magnitudes, and the sign is put on at the end.
// Only crates of this repository call these, with operands as `unpack` makes them.
#![tactic(auto)]

ghost use Rattle.std.specs.Prelude.{◌≡◌, ◌^◌, ◌<◌, ℤ, ◌-ℤ◌};
ghost use Rattle.std.specs.Int.Signed.{mag};
ghost use Rattle.definitions.specs.Class.{Value};
ghost use Rattle.definitions.specs.Division.{rounds_up, finish_by};
ghost use Rattle.operands.specs.Operand.{Ready, Unpacks};
ghost use Rattle.pairs.specs.Pair.{left_of, settled_of, below_of};
ghost use Rattle.pairs.specs.Divisions.{pair_divisions};

use definitions::Kind;
use division::{Counted, Divided, divide_counted};
use operands::{Operand, Unpacked, normalise};

// What is left of a dividend, and the low 32 bits of the quotient that was taken off.
#[derive(Clone, Copy)]
pub struct Left {
    pub value: Operand,
    pub quotient: u32,
}

// The gap D: the dividend's exponent less the divisor's.
pub fn gap(x: Unpacked, y: Unpacked) -> i32
    requires { Ready x × Ready y }
    ensures { result ≡ x.exponent -ℤ y.exponent }
{
    x.exponent - y.exponent
}

// Whether a quotient with this left-over goes up: past a half, or at a half where the quotient is odd. Twice the left-over need not fit
// a word, so it stands on both sides of the comparison.
pub fn rounds_up(kind: Kind, quotient: u32, remainder: u64, divisor: u64) -> bool
    requires { remainder < divisor }
    ensures { result ≡ rounds_up kind quotient remainder divisor }
{
    match kind {
        Kind::Truncated => false,
        Kind::Nearest => divisor - remainder < remainder + ((quotient % 2) as u64),
    }
}

// What a division left, as the remainder of the kind. `exponent` is that of bit 63, in the divisor and in what was left.
pub fn settle(kind: Kind, negative: bool, left: Divided, divisor: u64, exponent: i32) -> Left
    requires { (left.remainder < divisor) × (mag exponent < 2 ^ 20) }
    ensures { result ≡ settled_of kind negative left divisor exponent }
{
    let quotient = left.quotient;
    let remainder = left.remainder;
    if rounds_up(kind, quotient, remainder, divisor) {
        Left {
            value: normalise(!negative, divisor - remainder, exponent),
            quotient: quotient.wrapping_add(1),
        }
    } else {
        Left {
            value: normalise(negative, remainder, exponent),
            quotient,
        }
    }
}

// The remainder of a dividend whose exponent is below the divisor's. Only the nearest kind can take the divisor off, and only where
// the dividend is past half of it, so that the exponents are neighbours.
fn settle_below(kind: Kind, x: Unpacked, y: Unpacked, d: i32) -> Left
    requires { Ready x × Ready y }
    ensures { result ≡ below_of kind x y d }
{
    let a = x.significand;
    let b = y.significand;
    if kind == Kind::Nearest && -2 < d && b < a {
        Left {
            value: normalise(!x.negative, b - (a - b), x.exponent),
            quotient: 1,
        }
    } else {
        Left {
            value: Operand::Finite(x),
            quotient: 0,
        }
    }
}

// The remainder of the kind, finished. `d` is the gap.
pub fn finish_counted(kind: Kind, x: Unpacked, y: Unpacked, d: i32) -> Counted<Left>
    requires { Ready x × Ready y × (d ≡ x.exponent -ℤ y.exponent) }
    ensures left { (s : ℤ) (v w : Value) → Unpacks s v x → Unpacks s w y → result.value ≡ left_of s (finish_by kind w.count v) }
    ensures divisions { result.divisions ≡ pair_divisions x y }
{
    if d < 0 {
        return Counted {
            value: settle_below(kind, x, y, d),
            divisions: 0,
        };
    }
    let counted = divide_counted(x.significand, y.significand, d as u32);
    Counted {
        value: settle(kind, x.negative, counted.value, y.significand, y.exponent),
        divisions: counted.divisions,
    }
}

pub fn finish_pair(kind: Kind, x: Unpacked, y: Unpacked, d: i32) -> Left
    requires { Ready x × Ready y × (d ≡ x.exponent -ℤ y.exponent) }
    ensures { (s : ℤ) (v w : Value) → Unpacks s v x → Unpacks s w y → result ≡ left_of s (finish_by kind w.count v) }
{
    finish_counted(kind, x, y, d).value
}
