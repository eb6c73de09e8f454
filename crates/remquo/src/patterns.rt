// The remainder of two patterns with the sign of its quotient, of every bit pattern.
ghost use Rattle.std.specs.Prelude.{◌≡◌};
ghost use Rattle.definitions.specs.Facts.{told_denormal};
ghost use Rattle.definitions.specs.Signed.{signed_remainder};
ghost use Rattle.definitions.specs.Answers.{signed_meaning};

use crate::signed::signed_of;
use definitions::{Kind, Residue, Told};
use facts::denormal::any_denormal;
use packing::unpack::unpack;
use shapes::format::Format;

pub fn remquo<F: Format>(x: F, y: F, kind: Kind) -> Told<Residue<i32>>
    ensures answer { signed_meaning result.answer ≡ signed_remainder F.format kind (F.bits x) (F.bits y) }
    ensures denormal { result.denormal ≡ told_denormal F.format (signed_remainder F.format kind (F.bits x) (F.bits y)).number (F.bits x) (F.bits y) }
{
    Told {
        answer: signed_of(unpack(x), unpack(y), kind),
        denormal: any_denormal(x, y),
    }
}
