// Scaling of a normal number to a normal one, and splitting of a normal number: another exponent field, beside the same sign and the same
// stored significand. Nothing has to be normalised or rounded. Everything else goes the general way.
#![tactic(auto)]

ghost use Rattle.std.specs.Prelude.{◌≡◌, true, ◌+◌, ◌*◌, ◌≤◌, ◌<◌, pos, ◌+ℤ◌};
ghost use Rattle.definitions.specs.Format.{top_field, field_weight, with_sign};
ghost use Rattle.definitions.specs.Facts.{told_denormal};
ghost use Rattle.definitions.specs.Scale.{scale_report, split_report};
ghost use Rattle.definitions.specs.Answers.{joined, scale_meaning, split_meaning};
ghost use Rattle.quick_scaling.specs.Normal.{normal, stays_normal};

use definitions::{Pattern, Rounding, Split, Told, WithRounding};
use shapes::fields::{Fields, fields_of, pattern_of};
use shapes::format::{Format, hidden_part, leading_weight, top_field};

// Neither the field 0 nor the largest, and a leading digit: x87 has patterns without it beside every field.
pub fn is_normal<F: Format>(pattern: F) -> bool
    ensures { result ≡ normal F.format (F.bits pattern) }
{
    let fields = fields_of(pattern);
    0 < fields.field
        && fields.field < top_field::<F>()
        && leading_weight::<F>() <= hidden_part::<F>() + fields.stored
}

// Where a power takes a field to. An i64 holds the sum, whatever the power is.
fn reached(field: u64, power: i32) -> i64
    requires { field ≤ 32767 }
    ensures { result ≡ pos field +ℤ power }
{
    (field as i64) + (power as i64)
}

// Whether a pattern is a normal number before and after.
pub fn stays_normal<F: Format>(pattern: F, power: i32) -> bool
    ensures { result ≡ stays_normal F.format (F.bits pattern) power }
{
    if is_normal(pattern) {
        let field = reached(fields_of(pattern).field, power);
        return 0 < field && field < (top_field::<F>() as i64);
    }
    false
}

// The same sign and the same stored significand beside another field.
fn with_field<F: Format>(fields: Fields, field: u64) -> Pattern
    requires { (field ≤ top_field F.format) × (fields.stored < field_weight F.format) }
    ensures { joined result ≡ with_sign F.format fields.negative (field * field_weight F.format + fields.stored) }
{
    pattern_of::<F>(Fields { field, ..fields })
}

pub fn scale_normal<F: Format>(pattern: F, power: i32) -> Told<WithRounding<Pattern>>
    requires { stays_normal F.format (F.bits pattern) power ≡ true }
    ensures answer { scale_meaning result.answer ≡ scale_report F.format (F.bits pattern) power }
    ensures denormal { result.denormal ≡ told_denormal F.format (scale_report F.format (F.bits pattern) power).number (F.bits pattern) (F.bits pattern) }
{
    let fields = fields_of(pattern);
    Told {
        answer: Ok(WithRounding {
            value: with_field::<F>(fields, reached(fields.field, power) as u64),
            says: Rounding::Exact,
        }),
        denormal: false,
    }
}

// The field of a significand from 1 to below 2 is the bias.
pub fn split_normal<F: Format>(pattern: F) -> Told<Split>
    requires { normal F.format (F.bits pattern) ≡ true }
    ensures answer { split_meaning result.answer ≡ split_report F.format (F.bits pattern) }
    ensures denormal { result.denormal ≡ told_denormal F.format (split_report F.format (F.bits pattern)).number (F.bits pattern) (F.bits pattern) }
{
    let fields = fields_of(pattern);
    let significand = with_field::<F>(fields, F::BIAS as u64);
    let exponent = (fields.field as i32) - (F::BIAS as i32);
    Told {
        answer: Ok(Split {
            significand,
            exponent,
        }),
        denormal: false,
    }
}
