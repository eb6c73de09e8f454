// The remainder of operands, the same for every format: judge, divide, pack. Only crates of this repository call these, with operands as
// `unpack` makes them.
ghost use Rattle.std.specs.Prelude.{◌≡◌};
ghost use Rattle.definitions.specs.Class.{finite};
ghost use Rattle.definitions.specs.Format.{pattern_of};
ghost use Rattle.definitions.specs.Division.{finish};
ghost use Rattle.definitions.specs.Remainder.{quotient_bits, remainder_of};
ghost use Rattle.definitions.specs.Answers.{remainder_meaning, joined};
ghost use Rattle.operands.specs.Operand.{class_in, value_operand, divisor_operand, divisor_in};
ghost use Rattle.pairs.specs.Divisions.{divisor_divisions};
ghost use Rattle.packing.specs.Stands.{StandsValue, StandsDivisor};

use checks::pair::judge_pair;
use definitions::{Kind, Refused, Residue};
use division::Counted;
use facts::nan::refused;
use operands::{Operand, Unpacked, divisor_of};
use packing::held::Held;
use packing::pack::pack;
use pairs::{finish_counted, gap};
use quotients::quotient_bits;
use shapes::format::Format;

// A zero, and a value by an infinite divisor, are returned as they are, and nothing is divided.
fn kept<F: Format>(x: Operand) -> Counted<Residue<u32>>
    requires { StandsValue F.format x }
    ensures value { joined result.value.value ≡ pattern_of F.format (finite (value_operand F.format.smallest x)) }
    ensures quotient { result.value.quotient ≡ 0 }
    ensures divisions { result.divisions ≡ 0 }
{
    Counted {
        value: Residue {
            value: pack(Held::<F>::new(x)),
            quotient: 0,
        },
        divisions: 0,
    }
}

// A finite value by a divisor that has been judged.
pub fn divide_by_counted<F: Format>(
    x: Operand,
    y: Option<Unpacked>,
    kind: Kind,
) -> Counted<Residue<u32>>
    requires { StandsValue F.format x × StandsDivisor F.format y }
    ensures value { joined result.value.value ≡ pattern_of F.format (finite (finish kind (divisor_in F.format.smallest y) (value_operand F.format.smallest x)).value) }
    ensures quotient { result.value.quotient ≡ quotient_bits (finish kind (divisor_in F.format.smallest y) (value_operand F.format.smallest x)).whole }
    ensures divisions { result.divisions ≡ divisor_divisions x y }
{
    let Operand::Finite(a) = x else {
        return kept::<F>(x);
    };
    let Some(b) = y else {
        return kept::<F>(x);
    };
    let counted = finish_counted(kind, a, b, gap(a, b));
    let left = counted.value;
    let value = left.value;
    Counted {
        value: Residue {
            value: pack(Held::<F>::new(value)),
            quotient: quotient_bits(left.quotient),
        },
        divisions: counted.divisions,
    }
}

// Any two operands.
pub fn remainder_counted<F: Format>(
    x: Held<F>,
    y: Held<F>,
    kind: Kind,
) -> Counted<Result<Residue<u32>, Refused>>
    ensures answer { remainder_meaning result.value ≡ remainder_of F.format kind (class_in F.format.smallest x) (class_in F.format.smallest y) }
    ensures divisions { result.divisions ≡ divisor_divisions x (divisor_operand y) }
{
    let dividend = x.operand();
    let divisor = y.operand();
    if let Err(why) = judge_pair(dividend, divisor) {
        return Counted {
            value: Err(refused(why, x, y)),
            divisions: 0,
        };
    }
    let counted = divide_by_counted::<F>(dividend, divisor_of(divisor), kind);
    let residue = counted.value;
    Counted {
        value: Ok(residue),
        divisions: counted.divisions,
    }
}

pub fn remainder_of<F: Format>(x: Held<F>, y: Held<F>, kind: Kind) -> Result<Residue<u32>, Refused>
    ensures { remainder_meaning result ≡ remainder_of F.format kind (class_in F.format.smallest x) (class_in F.format.smallest y) }
{
    remainder_counted(x, y, kind).value
}
