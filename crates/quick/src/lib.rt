// The remainder of two normal numbers of binary64. In the common case the dividend's field is not below the divisor's; and where it lies so
// far below that the quotient is zero, the dividend is kept. The general way takes any pattern of any format apart and puts one together;
// here the places are constants, and nothing has to be judged or normalised: it takes a third of the instructions.
// Everything else goes the general way. Only crates of this repository call these.
#![tactic(auto)]

ghost use Rattle.std.specs.Prelude.{◌≡◌, ◌-◌, ◌*◌, ◌/◌, ◌%◌, ◌^◌, ◌<◌, ◌≤◌, true, cond, nat_lt};
ghost use Rattle.definitions.specs.Class.{finite};
ghost use Rattle.definitions.specs.Format.{binary64, pattern_of};
ghost use Rattle.definitions.specs.Division.{rounds_up};
ghost use Rattle.definitions.specs.Remainder.{remainder};
ghost use Rattle.definitions.specs.Answers.{joined};
ghost use Rattle.division.specs.Divided.{divided_of};
ghost use Rattle.division.specs.Divisions.{divisions_of};
ghost use Rattle.pairs.specs.Divisions.{divisions};
ghost use Rattle.quick.specs.Settled.{settled_of};
ghost use Rattle.quick.specs.Common.{field_of, spread_of, common, margin_of, kept};

use definitions::{Kind, Pattern, Residue};
use division::{Counted, Divided, divide_counted, divide_once};
use pairs::rounds_up;
use quotients::quotient_bits;

// A left-over with its sign, and its quotient's low 32 bits.
#[derive(Clone, Copy)]
pub struct Settled {
    pub negative: bool,
    pub rest: u64,
    pub quotient: u32,
}

// 2^52, the weight of the exponent field's last bit and of a significand's leading digit; and the sign's.
const UNIT: u64 = 4503599627370496;

pub const SIGN: u64 = 9223372036854775808;

pub fn field_of(pattern: u64) -> u64
    ensures { result ≡ field_of pattern }
{
    pattern / UNIT % 2048
}

// The significand of a normal number with its leading one at bit 63, so that eleven bits are spare.
pub fn spread(pattern: u64) -> u64
    ensures { result ≡ spread_of pattern }
{
    (pattern % UNIT + UNIT) * 2048
}

pub fn is_below(x: u64, y: u64) -> bool
    ensures { result ≡ nat_lt (field_of x) (field_of y) }
{
    field_of(x) < field_of(y)
}

pub fn is_common(x: u64, y: u64) -> bool
    ensures { result ≡ common x y }
{
    field_of(x) < 2047 && 0 < field_of(y) && field_of(y) <= field_of(x)
}

// How many fields a dividend has to lie further below its divisor, where the quotient may go up.
pub fn margin(kind: Kind) -> u64
    ensures { result ≡ margin_of kind }
{
    match kind {
        Kind::Truncated => 0,
        Kind::Nearest => 1,
    }
}

// Whether the fields alone say that a normal dividend is its own remainder.
pub fn is_kept(x: u64, y: u64, kind: Kind) -> bool
    ensures { result ≡ kept kind x y }
{
    0 < field_of(x) && field_of(x) + margin(kind) < field_of(y) && field_of(y) < 2047
}

pub fn remainder_kept(x: u64, y: u64, kind: Kind) -> Counted<Residue<u32>>
    requires { kept kind x y ≡ true }
    ensures answer { record { number = 0; value = joined result.value.value; quotient = result.value.quotient } ≡ remainder binary64 kind x y }
    ensures divisions { result.divisions ≡ divisions binary64 x y }
{
    Counted {
        value: Residue {
            value: Pattern { high: 0, low: x },
            quotient: 0,
        },
        divisions: 0,
    }
}

fn sign_of(negative: bool) -> u64
    ensures { result ≡ cond negative (2 ^ 63) 0 }
{
    if negative { SIGN } else { 0 }
}

// The pattern of a significand with eleven spare bits, at the place of a field: its leading zeros come off the field, as far as that goes.
// A leading digit that reaches the top adds the one that the field lacks.
pub fn written(negative: bool, significand: u64, field: u64) -> u64
    requires { (significand % 2 ^ 11 ≡ 0) × (1 ≤ field) × (field < 2047) }
    ensures { result ≡ pattern_of binary64 (finite (record { negative = negative; count = significand / 2 ^ 11 * 2 ^ (field - 1) })) }
{
    let sign = sign_of(negative);
    if significand == 0 {
        return sign;
    }
    let zeros = significand.leading_zeros() as u64;
    let shift = zeros.min(field - 1);
    sign + ((field - 1 - shift) * UNIT + (significand << shift) / 2048)
}

// The divisor ends in eleven zeros at least: where there are no more places, one division is enough, and is compiled in here.
fn divide_quick(a: u64, b: u64, places: u32) -> Counted<Divided>
    requires { 2 ^ 63 ≤ b }
    ensures divided { result.value ≡ divided_of a b places }
    ensures divisions { result.divisions ≡ divisions_of a b places }
{
    if places <= b.trailing_zeros() {
        return Counted {
            value: divide_once(a, b, places),
            divisions: 1,
        };
    }
    divide_counted(a, b, places)
}

// What a division left, settled by the kind. The nearest quotient goes up as often as not: its two answers are chosen between, and not
// branched to.
pub fn settle(kind: Kind, negative: bool, left: Divided, divisor: u64) -> Settled
    requires { left.remainder < divisor }
    ensures { result ≡ settled_of (rounds_up kind left.quotient left.remainder divisor) negative left divisor }
{
    let rest = left.remainder;
    let quotient = left.quotient;
    match kind {
        Kind::Truncated => Settled {
            negative,
            rest,
            quotient,
        },
        Kind::Nearest => {
            let up = rounds_up(kind, quotient, rest, divisor);
            let next = u32::from(up);
            let taken = u64::from(up);
            Settled {
                negative: negative ^ up,
                rest: rest * (1 - taken) + (divisor - rest) * taken,
                quotient: quotient.wrapping_add(next),
            }
        }
    }
}

pub fn remainder_common(x: u64, y: u64, kind: Kind) -> Counted<Residue<u32>>
    requires { common x y ≡ true }
    ensures answer { record { number = 0; value = joined result.value.value; quotient = result.value.quotient } ≡ remainder binary64 kind x y }
    ensures divisions { result.divisions ≡ divisions binary64 x y }
{
    let divisor = spread(y);
    let field = field_of(y);
    let counted = divide_quick(spread(x), divisor, (field_of(x) - field) as u32);
    let settled = settle(kind, SIGN <= x, counted.value, divisor);
    Counted {
        value: Residue {
            value: Pattern {
                high: 0,
                low: written(settled.negative, settled.rest, field),
            },
            quotient: quotient_bits(settled.quotient),
        },
        divisions: counted.divisions,
    }
}
