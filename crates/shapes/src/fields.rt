// A pattern as its sign, its exponent field and its stored significand. An interchange format has all three in the low word; x87 has
// its significand there, and the others in the high word.
ghost use Rattle.std.specs.Prelude.{◌≡◌, ◌+◌, ◌*◌, ◌<◌, ◌≤◌};
ghost use Rattle.definitions.specs.Format.{top_field, field_weight, with_sign};
ghost use Rattle.definitions.specs.Answers.{joined};
ghost use Rattle.shapes.specs.Shape.{above, fields_above, fields_in};

use crate::format::{Format, leading_weight, top_field};
use definitions::{Layout, Pattern};

#[derive(Clone, Copy)]
pub struct Fields {
    pub negative: bool,
    pub field: u64,
    pub stored: u64,
}

// `above` is the exponent field with the sign over it.
fn fields_above<F: Format>(above: u64, stored: u64) -> Fields
    requires { above < 2 * (top_field F.format + 1) }
    ensures { result ≡ fields_above (top_field F.format) above stored }
{
    let top = top_field::<F>();
    if top < above {
        Fields {
            negative: true,
            field: above - (top + 1),
            stored,
        }
    } else {
        Fields {
            negative: false,
            field: above,
            stored,
        }
    }
}

pub fn fields_of<F: Format>(pattern: F) -> Fields
    ensures { result ≡ fields_in F.format (F.bits pattern) }
{
    let words = pattern.words();
    match F::LAYOUT {
        Layout::Hidden => {
            let weight = leading_weight::<F>();
            fields_above::<F>(words.low / weight, words.low % weight)
        }
        Layout::Explicit => fields_above::<F>(words.high, words.low),
    }
}

// The exponent field with the sign over it.
fn above<F: Format>(negative: bool, field: u64) -> u64
    requires { field ≤ top_field F.format }
    ensures { result ≡ above F.format negative field }
{
    if negative {
        top_field::<F>() + 1 + field
    } else {
        field
    }
}

pub fn pattern_of<F: Format>(fields: Fields) -> Pattern
    requires { (fields.field ≤ top_field F.format) × (fields.stored < field_weight F.format) }
    ensures { joined result ≡ with_sign F.format fields.negative (fields.field * field_weight F.format + fields.stored) }
{
    let above = above::<F>(fields.negative, fields.field);
    match F::LAYOUT {
        Layout::Hidden => Pattern {
            high: 0,
            low: above * leading_weight::<F>() + fields.stored,
        },
        Layout::Explicit => Pattern {
            high: above,
            low: fields.stored,
        },
    }
}
