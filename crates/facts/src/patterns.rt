// The NaN of two patterns, of every bit pattern.
ghost use Rattle.std.specs.Prelude.{◌≡◌, ◌<◌};
ghost use Rattle.definitions.specs.Format.{class_of, patterns};
ghost use Rattle.definitions.specs.Facts.{nan_of};
ghost use Rattle.definitions.specs.Answers.{joined};

use crate::nan::nan_of;
use definitions::Pattern;
use packing::unpack::unpack;
use shapes::format::Format;

// The NaN that the refusal 3 of two patterns speaks of.
pub fn pattern_nan<F: Format>(x: F, y: F) -> Pattern
    ensures nan { joined result ≡ nan_of F.format (class_of F.format (F.bits x)) (class_of F.format (F.bits y)) }
    ensures fits { joined result < patterns F.format }
{
    nan_of(unpack(x), unpack(y))
}
