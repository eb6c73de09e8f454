// A pattern scaled by a power of two, rounded once, ties to even.
ghost use Rattle.std.specs.Prelude.{◌≡◌};
ghost use Rattle.definitions.specs.Facts.{told_denormal};
ghost use Rattle.definitions.specs.Scale.{scale_of, scale_report};
ghost use Rattle.definitions.specs.Answers.{scale_meaning};
ghost use Rattle.operands.specs.Operand.{class_in};

use definitions::{Pattern, Refusal, Refused, Rounding, Told, WithRounding};
use facts::denormal::is_denormal;
use facts::nan::refused;
use operands::Operand;
use packing::held::Held;
use packing::pack::pack;
use packing::unpack::unpack;
use powers::value::scale_value;
use quick_scaling::{scale_normal, stays_normal};
use shapes::format::Format;

// An operand of any format: 2, 3, then the value. Zeros and infinities stay as they are.
fn scale_of<F: Format>(x: Held<F>, power: i32) -> Result<WithRounding<Pattern>, Refused>
    ensures { scale_meaning result ≡ scale_of F.format (class_in F.format.smallest x) power }
{
    match x.operand() {
        Operand::Unsupported => Err(refused(Refusal::Unsupported, x, x)),
        Operand::Nan { .. } => Err(refused(Refusal::Nan, x, x)),
        Operand::Infinite(_) | Operand::Zero(_) => Ok(WithRounding {
            value: pack(x),
            says: Rounding::Exact,
        }),
        Operand::Finite(value) => {
            let scaled = scale_value::<F>(value, power);
            let operand = scaled.value;
            let says = scaled.says;
            Ok(WithRounding {
                value: pack(Held::<F>::new(operand)),
                says,
            })
        }
    }
}

// Any pattern: taken apart, scaled and put together. Compiled into a caller it would make the way of normal numbers slower.
#[inline(never)]
fn scale_general<F: Format>(pattern: F, power: i32) -> Told<WithRounding<Pattern>>
    ensures answer { scale_meaning result.answer ≡ scale_report F.format (F.bits pattern) power }
    ensures denormal { result.denormal ≡ told_denormal F.format (scale_report F.format (F.bits pattern) power).number (F.bits pattern) (F.bits pattern) }
{
    Told {
        answer: scale_of(unpack(pattern), power),
        denormal: is_denormal(pattern),
    }
}

pub fn scale<F: Format>(x: F, power: i32) -> Told<WithRounding<Pattern>>
    ensures answer { scale_meaning result.answer ≡ scale_report F.format (F.bits x) power }
    ensures denormal { result.denormal ≡ told_denormal F.format (scale_report F.format (F.bits x) power).number (F.bits x) (F.bits x) }
{
    if stays_normal(x, power) {
        return scale_normal(x, power);
    }
    scale_general(x, power)
}
