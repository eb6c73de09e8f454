// A format, by the type of its patterns: what every format shares is written once, over this trait. Its constants are known wherever code
// is compiled, and so are the weights that follow from them.
ghost use Rattle.std.specs.Prelude.{◌≡◌, ◌<◌, ℕ, ℤ};
ghost use Rattle.definitions.specs.Format.{Format, patterns, leading, top_field, hidden_part};
ghost use Rattle.definitions.specs.Answers.{joined};
ghost use Rattle.definitions.specs.declared.Layout.{Layout};
ghost use Rattle.shapes.specs.Shape.{Sound};

use definitions::{Layout, Pattern};
use operands::power_of_two;

pub trait Format: Copy {
    // The precision, the bias, the exponent of the smallest place, and whether the leading digit stands in a pattern.
    const PRECISION: u32;

    const BIAS: u32;

    const SMALLEST: i32;

    const LAYOUT: Layout;

    ghost PRECISION: { ℕ };

    ghost BIAS: { ℕ };

    ghost SMALLEST: { ℤ };

    ghost LAYOUT: { Layout };

    // The format that the definitions speak of, and the number that a pattern is.
    ghost format: { Format };

    ghost bits: { Self → ℕ };

    fn words(self) -> Pattern
        ensures bits { joined result ≡ bits self }
        ensures fits { joined result < patterns format };

    ghost sound: { Sound format };

    ghost precision_is: { PRECISION ≡ format.precision };

    ghost bias_is: { BIAS ≡ format.bias };

    ghost smallest_is: { SMALLEST ≡ format.smallest };

    ghost layout_is: { LAYOUT ≡ format.layout };
}

// The weight of a significand's leading digit.
pub fn leading_weight<F: Format>() -> u64
    ensures { result ≡ leading F.format }
{
    power_of_two(F::PRECISION - 1)
}

// The exponent field of infinities and NaNs.
pub fn top_field<F: Format>() -> u64
    ensures { result ≡ top_field F.format }
{
    2 * (F::BIAS as u64) + 1
}

// What a pattern leaves out of a significand that has its leading digit.
pub fn hidden_part<F: Format>() -> u64
    ensures { result ≡ hidden_part F.format.layout (leading F.format) }
{
    match F::LAYOUT {
        Layout::Hidden => leading_weight::<F>(),
        Layout::Explicit => 0,
    }
}
