// The remainder of two normal numbers of binary16 or binary32, whose significands have 24 digits at most: plain divisions by the processor
// are quicker there than any reciprocal. In the common case the dividend's field is not below the divisor's; and where it lies so far below
// that the quotient is zero, the dividend is kept. Everything else goes the general way.
#![tactic(auto)]

ghost use Rattle.std.specs.Prelude.{◌≡◌, true, ◌-◌, ◌*◌, ◌^◌, ◌≤◌, ◌<◌};
ghost use Rattle.definitions.specs.Class.{finite};
ghost use Rattle.definitions.specs.Format.{patterns, top_field, sign_weight, pattern_of};
ghost use Rattle.definitions.specs.Remainder.{remainder};
ghost use Rattle.definitions.specs.Answers.{joined};
ghost use Rattle.quick_short.specs.Short.{Short, field_of, significand_of, common, kept, quick, short16, short32};

use definitions::{Kind, Pattern, Residue};
use formats::{Binary16, Binary32};
use quick::{margin, settle};
use quotients::quotient_bits;
use shapes::format::{Format, leading_weight, top_field};
use short_division::divide_short;

// A format whose patterns are short words.
pub trait Short: Format {
    fn word(self) -> u64
        ensures bits { result ≡ Self.bits self }
        ensures fits { result < patterns Self.format };

    ghost short: { Short Self.format };
}

impl Short for Binary16 {
    fn word(self) -> u64 {
        self.0 as u64
    }

    ghost short = { short16 };
}

impl Short for Binary32 {
    fn word(self) -> u64 {
        self.0 as u64
    }

    ghost short = { short32 };
}

fn field_of<F: Short>(pattern: u64) -> u64
    ensures { result ≡ field_of F.format pattern }
{
    pattern / leading_weight::<F>() % (top_field::<F>() + 1)
}

fn significand_of<F: Short>(pattern: u64) -> u64
    ensures { result ≡ significand_of F.format pattern }
{
    let weight = leading_weight::<F>();
    weight + pattern % weight
}

fn sign_weight<F: Short>() -> u64
    ensures { result ≡ sign_weight F.format }
{
    leading_weight::<F>() * (top_field::<F>() + 1)
}

fn is_common<F: Short>(x: u64, y: u64) -> bool
    ensures { result ≡ common F.format x y }
{
    let field = field_of::<F>(y);
    field_of::<F>(x) < top_field::<F>() && 0 < field && field <= field_of::<F>(x)
}

// Whether the fields alone say that a normal dividend is its own remainder.
fn is_kept<F: Short>(x: u64, y: u64, kind: Kind) -> bool
    ensures { result ≡ kept F.format kind x y }
{
    let field = field_of::<F>(x);
    let above = field_of::<F>(y);
    0 < field && field + margin(kind) < above && above < top_field::<F>()
}

fn remainder_kept<F: Short>(x: u64, y: u64, kind: Kind) -> Residue<u32>
    requires { (x < patterns F.format) × (kept F.format kind x y ≡ true) }
    ensures { record { number = 0; value = joined result.value; quotient = result.quotient } ≡ remainder F.format kind x y }
{
    Residue {
        value: Pattern { high: 0, low: x },
        quotient: 0,
    }
}

// The pattern of a significand at the place of a field: its leading zeros come off the field, as far as that goes. A leading digit that
// reaches its place adds the one that the field lacks.
fn written<F: Short>(negative: bool, significand: u64, field: u64) -> u64
    requires { (significand < 2 ^ F.format.precision) × (1 ≤ field) × (field < top_field F.format) }
    ensures { result ≡ pattern_of F.format (finite (record { negative = negative; count = significand * 2 ^ (field - 1) })) }
{
    let sign = if negative { sign_weight::<F>() } else { 0 };
    if significand == 0 {
        return sign;
    }
    let zeros = (u64::leading_zeros(significand) - (64 - F::PRECISION)) as u64;
    let shift = if zeros < field { zeros } else { field - 1 };
    sign + ((field - 1 - shift) * leading_weight::<F>() + (significand << shift))
}

fn remainder_common<F: Short>(x: u64, y: u64, kind: Kind) -> Residue<u32>
    requires { common F.format x y ≡ true }
    ensures { record { number = 0; value = joined result.value; quotient = result.quotient } ≡ remainder F.format kind x y }
{
    let divisor = significand_of::<F>(y);
    let field = field_of::<F>(y);
    let places = (field_of::<F>(x) - field) as u32;
    let left = divide_short(significand_of::<F>(x), divisor, places);
    let settled = settle(kind, sign_weight::<F>() <= x, left, divisor);
    Residue {
        value: Pattern {
            high: 0,
            low: written::<F>(settled.negative, settled.rest, field),
        },
        quotient: quotient_bits(settled.quotient),
    }
}

// Whether two words are normal patterns that have their remainder here. Any two words may be asked about.
pub fn is_quick<F: Short>(x: u64, y: u64, kind: Kind) -> bool
    ensures { result ≡ quick F.format kind x y }
{
    is_common::<F>(x, y) || is_kept::<F>(x, y, kind)
}

pub fn remainder_quick<F: Short>(x: u64, y: u64, kind: Kind) -> Residue<u32>
    requires { (x < patterns F.format) × (quick F.format kind x y ≡ true) }
    ensures { record { number = 0; value = joined result.value; quotient = result.quotient } ≡ remainder F.format kind x y }
{
    if is_common::<F>(x, y) {
        remainder_common::<F>(x, y, kind)
    } else {
        remainder_kept::<F>(x, y, kind)
    }
}
