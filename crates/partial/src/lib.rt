// A step of a finite value. Only crates of this repository call these, with operands as `unpack`
// makes them.
#![tactic(auto)]

ghost use Rattle.std.specs.Prelude.{◌≡◌, true, ◌-◌, ◌≤◌, pos, ◌-ℤ◌};
ghost use Rattle.definitions.specs.Format.{x87};
ghost use Rattle.definitions.specs.Steps.{cut_at, step_by, step};
ghost use Rattle.operands.specs.Operand.{value_in, value_operand, divisor_in};
ghost use Rattle.operands.specs.declared.Operand.TheVariants.{Finite};
ghost use Rattle.packing.specs.Stands.{StandsValue, StandsDivisor};
ghost use Rattle.definitions.specs.Reports.{sized};
ghost use Rattle.pairs.specs.Pair.{left_of};
ghost use Rattle.partial.specs.Stepped.{stepped_of};

use definitions::{Kind, Progress};
use division::divide;
use operands::{Operand, Unpacked};
use pairs::{Left, finish_pair, gap, settle};
use quotients::shifted;

// A partial step: of the quotient's `places` the first `size` are taken, and both kinds cut.
fn cut_pair(x: Unpacked, y: Unpacked, size: u32, places: u32) -> Left
    requires { StandsValue x87 (Finite x) × StandsValue x87 (Finite y) × (size ≤ places) × (pos places ≡ x.exponent -ℤ y.exponent) }
    ensures { result ≡ left_of x87.smallest (cut_at (places - size) (value_in x87.smallest y).count (value_in x87.smallest x)) }
{
    let divided = divide(x.significand, y.significand, size);
    let left = settle(
        Kind::Truncated,
        x.negative,
        divided,
        y.significand,
        x.exponent - (size as i32),
    );
    let value = left.value;
    Left {
        value,
        quotient: shifted(left.quotient, places - size),
    }
}

fn step_pair(kind: Kind, x: Unpacked, y: Unpacked, size: u32) -> Progress<Left>
    requires { StandsValue x87 (Finite x) × StandsValue x87 (Finite y) × (sized size ≡ true) }
    ensures { result ≡ stepped_of (step_by kind size (value_in x87.smallest y).count (value_in x87.smallest x)) }
{
    let d = gap(x, y);
    if d < 64 {
        Progress::Finished(finish_pair(kind, x, y, d))
    } else {
        let places = d as u32;
        Progress::Unfinished(cut_pair(x, y, size, places))
    }
}

// A zero, and a value by an infinite divisor, finish as they are.
pub fn step_value(kind: Kind, x: Operand, y: Option<Unpacked>, size: u32) -> Progress<Left>
    requires { StandsValue x87 x × StandsDivisor x87 y × (sized size ≡ true) }
    ensures { result ≡ stepped_of (step kind size (divisor_in x87.smallest y) (value_operand x87.smallest x)) }
{
    let (Operand::Finite(a), Some(b)) = (x, y) else {
        return Progress::Finished(Left {
            value: x,
            quotient: 0,
        });
    };
    step_pair(kind, a, b, size)
}
