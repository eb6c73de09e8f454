// A pattern split into a significand with magnitude from 1 to below 2 and a signed exponent.
ghost use Rattle.std.specs.Prelude.{◌≡◌};
ghost use Rattle.definitions.specs.Facts.{told_denormal};
ghost use Rattle.definitions.specs.Scale.{split_of, split_report};
ghost use Rattle.definitions.specs.Answers.{split_meaning};
ghost use Rattle.operands.specs.Operand.{class_in};

use definitions::{Refusal, Refused, Split, Told};
use facts::denormal::is_denormal;
use facts::nan::refused;
use operands::{Operand, Unpacked};
use packing::held::Held;
use packing::pack::pack;
use packing::unpack::unpack;
use quick_scaling::{is_normal, split_normal};
use shapes::format::Format;

// An operand of any format: 2, 3, 4, 8, then its leading one at the place of 1, and the exponent that it had.
fn split_of<F: Format>(x: Held<F>) -> Result<Split, Refused>
    ensures { split_meaning result ≡ split_of F.format (class_in F.format.smallest x) }
{
    match x.operand() {
        Operand::Unsupported => Err(refused(Refusal::Unsupported, x, x)),
        Operand::Nan { .. } => Err(refused(Refusal::Nan, x, x)),
        Operand::Infinite(_) => Err(refused(Refusal::Infinite, x, x)),
        Operand::Zero(_) => Err(refused(Refusal::ZeroSplit, x, x)),
        Operand::Finite(value) => {
            let significand = Unpacked {
                exponent: 0,
                ..value
            };
            Ok(Split {
                significand: pack(Held::<F>::new(Operand::Finite(significand))),
                exponent: value.exponent,
            })
        }
    }
}

// Any pattern: taken apart, split and put together. Compiled into a caller it would make the way of normal numbers slower.
#[inline(never)]
fn split_general<F: Format>(pattern: F) -> Told<Split>
    ensures answer { split_meaning result.answer ≡ split_report F.format (F.bits pattern) }
    ensures denormal { result.denormal ≡ told_denormal F.format (split_report F.format (F.bits pattern)).number (F.bits pattern) (F.bits pattern) }
{
    Told {
        answer: split_of(unpack(pattern)),
        denormal: is_denormal(pattern),
    }
}

pub fn split<F: Format>(x: F) -> Told<Split>
    ensures answer { split_meaning result.answer ≡ split_report F.format (F.bits x) }
    ensures denormal { result.denormal ≡ told_denormal F.format (split_report F.format (F.bits x)).number (F.bits x) (F.bits x) }
{
    if is_normal(x) {
        return split_normal(x);
    }
    split_general(x)
}
