// The remainder of two normal x87 numbers, without operands: a significand with its leading digit is a word as the engine divides it, and
// nothing has to be judged or normalised. In the common case the dividend's field is not below the divisor's; and where it lies so far
// below that the quotient is zero, the dividend is kept. Everything else goes the general way. Only crates of this repository call these.
#![tactic(auto)]

ghost use Rattle.std.specs.Prelude.{◌≡◌, true, ◌+◌, ◌-◌, ◌*◌, ◌^◌, ◌≤◌, ◌<◌, cond, ltb, Ok};
ghost use Rattle.definitions.specs.Class.{finite};
ghost use Rattle.definitions.specs.Format.{x87, words, pattern_of};
ghost use Rattle.definitions.specs.Remainder.{remainder};
ghost use Rattle.definitions.specs.Reports.{nothing, sized, step_report};
ghost use Rattle.definitions.specs.Answers.{step_meaning, joined};
ghost use Rattle.definitions.specs.declared.Kind.{Kind};
ghost use Rattle.division.specs.Divided.{divided_of};
ghost use Rattle.quick.specs.Common.{margin_of};
ghost use Rattle.quick_x87.specs.Common.{field_of, normal, normals};

use definitions::{Kind, Pattern, Progress, Reached, Residue};
use division::{Divided, divide, divide_once};
use formats::X87;
use quick::{margin, settle};
use quotients::{quotient_bits, shifted};
use reciprocals::Inverse;
use shapes::format::Format;

// The weight of a significand's leading digit, and of the sign in its word.
const LEADING: u64 = 9223372036854775808;

const SIGN: u64 = 32768;

fn field_of(x: X87) -> u64
    ensures { result ≡ field_of x.word }
{
    (x.word % 32768) as u64
}

// One test for both ends of the fields: with one added the last is 0, and the first is 1.
fn is_normal(x: X87) -> bool
    ensures { result ≡ normal x.significand x.word }
{
    LEADING <= x.significand && 1 < (field_of(x) + 1) % 32768
}

pub fn are_normal(x: X87, y: X87) -> bool
    ensures { result ≡ normals x.significand x.word y.significand y.word }
{
    is_normal(x) && is_normal(y)
}

pub fn is_below(x: X87, y: X87) -> bool
    ensures { result ≡ ltb (field_of x.word) (field_of y.word) }
{
    field_of(x) < field_of(y)
}

// Whether the fields alone say that a normal dividend is its own remainder.
pub fn is_kept(x: X87, y: X87, kind: Kind) -> bool
    ensures { result ≡ ltb (field_of x.word + margin_of kind) (field_of y.word) }
{
    field_of(x) + margin(kind) < field_of(y)
}

pub fn remainder_kept(x: X87, y: X87, kind: Kind) -> Residue<u32>
    requires { (normals x.significand x.word y.significand y.word ≡ true) × (field_of x.word + margin_of kind < field_of y.word) }
    ensures { record { number = 0; value = joined result.value; quotient = result.quotient } ≡ remainder x87 kind (words x.word x.significand) (words y.word y.significand) }
{
    Residue {
        value: x.words(),
        quotient: 0,
    }
}

fn sign_of(negative: bool) -> u64
    ensures { result ≡ cond negative (2 ^ 15) 0 }
{
    if negative { SIGN } else { 0 }
}

// The pattern of a significand at the place of a field: its leading zeros come off the field, as far as that goes.
fn written(negative: bool, significand: u64, field: u64) -> Pattern
    requires { (1 ≤ field) × (field < 32767) }
    ensures { joined result ≡ pattern_of x87 (finite (record { negative = negative; count = significand * 2 ^ (field - 1) })) }
{
    let sign = sign_of(negative);
    if significand == 0 {
        return Pattern { high: sign, low: 0 };
    }
    let zeros = significand.leading_zeros() as u64;
    if zeros < field {
        Pattern {
            high: sign + (field - zeros),
            low: significand << zeros,
        }
    } else {
        Pattern {
            high: sign,
            low: significand << (field - 1),
        }
    }
}

// a × 2^places by b, by b's reciprocal: the first turn of the engine.
fn divide_turn(a: u64, b: u64, places: u32) -> Divided
    requires { (2 ^ 63 ≤ b) × (places < 64) }
    ensures { result ≡ divided_of a b places }
{
    let inverse = Inverse::new(b);
    Divided::from(inverse.divide_words(a / 2 >> (63 - places), a << places))
}

// As the engine divides, with its cases below 64 places compiled in here.
fn divide_quick(a: u64, b: u64, places: u32) -> Divided
    requires { 2 ^ 63 ≤ b }
    ensures { result ≡ divided_of a b places }
{
    if places <= b.trailing_zeros() {
        return divide_once(a, b, places);
    }
    if places < 64 {
        return divide_turn(a, b, places);
    }
    divide(a, b, places)
}

pub fn remainder_common(x: X87, y: X87, kind: Kind) -> Residue<u32>
    requires { (normals x.significand x.word y.significand y.word ≡ true) × (field_of y.word ≤ field_of x.word) }
    ensures { record { number = 0; value = joined result.value; quotient = result.quotient } ≡ remainder x87 kind (words x.word x.significand) (words y.word y.significand) }
{
    let field = field_of(y);
    let left = divide_quick(x.significand, y.significand, (field_of(x) - field) as u32);
    let settled = settle(kind, 32768 <= x.word, left, y.significand);
    Residue {
        value: written(settled.negative, settled.rest, field),
        quotient: quotient_bits(settled.quotient),
    }
}

// A partial step: of the quotient's `gap` places the first `size` are taken, and both kinds cut.
fn cut_common(x: X87, y: X87, size: u32, gap: u32) -> Residue<u32>
    requires { (normals x.significand x.word y.significand y.word ≡ true) × (gap + field_of y.word ≡ field_of x.word) × (64 ≤ gap) × (sized size ≡ true) }
    ensures { (κ : Kind) → record { number = 1; value = joined result.value; quotient = result.quotient; steps = 1 } ≡ step_report nothing κ size (words x.word x.significand) (words y.word y.significand) }
{
    let left = divide_quick(x.significand, y.significand, size);
    let quotient = shifted(left.quotient, gap - size);
    Residue {
        value: written(32768 <= x.word, left.remainder, field_of(x) - (size as u64)),
        quotient: quotient_bits(quotient),
    }
}

fn reached(residue: Residue<u32>) -> Reached
    ensures { result ≡ record { value = residue.value; quotient = residue.quotient; steps = 1 } }
{
    Reached {
        value: residue.value,
        quotient: residue.quotient,
        steps: 1,
    }
}

// A step of the common case: below 64 places it finishes, with the remainder.
pub fn step_common(x: X87, y: X87, size: u32, kind: Kind) -> Progress<Reached>
    requires { (normals x.significand x.word y.significand y.word ≡ true) × (field_of y.word ≤ field_of x.word) × (sized size ≡ true) }
    ensures { step_meaning (Ok result) ≡ step_report nothing kind size (words x.word x.significand) (words y.word y.significand) }
{
    let gap = (field_of(x) - field_of(y)) as u32;
    if gap < 64 {
        Progress::Finished(reached(remainder_common(x, y, kind)))
    } else {
        Progress::Unfinished(reached(cut_common(x, y, size, gap)))
    }
}
