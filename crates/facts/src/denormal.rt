// Denormal patterns.
ghost use Rattle.std.specs.Prelude.{◌≡◌, ◌||◌};
ghost use Rattle.definitions.specs.Facts.{denormal};

use shapes::fields::fields_of;
use shapes::format::Format;

// The field 0, and not a zero.
pub fn is_denormal<F: Format>(pattern: F) -> bool
    ensures { result ≡ denormal F.format (F.bits pattern) }
{
    let fields = fields_of(pattern);
    fields.field == 0 && fields.stored != 0
}

// Either of two patterns.
pub fn any_denormal<F: Format>(x: F, y: F) -> bool
    ensures { result ≡ denormal F.format (F.bits x) || denormal F.format (F.bits y) }
{
    is_denormal(x) || is_denormal(y)
}
