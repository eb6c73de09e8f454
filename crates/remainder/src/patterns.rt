// The remainder of two patterns, of every bit pattern: take apart, divide, put together.
ghost use Rattle.std.specs.Prelude.{◌≡◌, true, false, ◌/◌, ◌+◌, ◌≤◌, Ok};
ghost use Rattle.definitions.specs.Format.{binary64, class_of};
ghost use Rattle.definitions.specs.Facts.{told_denormal};
ghost use Rattle.definitions.specs.Remainder.{remainder};
ghost use Rattle.definitions.specs.Answers.{remainder_meaning};
ghost use Rattle.pairs.specs.Divisions.{divisions, gap_of};
ghost use Rattle.quick_short.specs.Short.{quick};

use crate::divided::{remainder_counted, remainder_of};
use definitions::{Kind, Residue, Told};
use division::Counted;
use facts::denormal::any_denormal;
use formats::{Binary16, Binary32, Binary64, X87};
use packing::unpack::unpack;
use quick::{is_below, is_common, is_kept, remainder_common, remainder_kept};
use quick_short::{Short, is_quick, remainder_quick};
use shapes::format::Format;

// A format whose patterns have a remainder. All are found in the general way, and normal numbers in quicker ones, which differ from format
// to format.
pub trait Remainder: Format {
    // By a divisor of the same format.
    fn remainder(self, divisor: Self, kind: Kind) -> Told<Residue<u32>>
        ensures answer { remainder_meaning result.answer ≡ remainder Self.format kind (Self.bits self) (Self.bits divisor) }
        ensures denormal { result.denormal ≡ told_denormal Self.format (remainder Self.format kind (Self.bits self) (Self.bits divisor)).number (Self.bits self) (Self.bits divisor) };
}

// Any two patterns of a format. Compiled into a caller it would make the quick ways slower.
#[inline(never)]
fn remainder_general<F: Format>(x: F, y: F, kind: Kind) -> Told<Residue<u32>>
    ensures answer { remainder_meaning result.answer ≡ remainder F.format kind (F.bits x) (F.bits y) }
    ensures denormal { result.denormal ≡ told_denormal F.format (remainder F.format kind (F.bits x) (F.bits y)).number (F.bits x) (F.bits y) }
{
    Told {
        answer: remainder_of(unpack(x), unpack(y), kind),
        denormal: any_denormal(x, y),
    }
}

// A pair of normal numbers is never refused, and neither is denormal.
fn told(residue: Residue<u32>) -> Told<Residue<u32>>
    ensures answer { result.answer ≡ Ok residue }
    ensures denormal { result.denormal ≡ false }
{
    Told {
        answer: Ok(residue),
        denormal: false,
    }
}

// Two patterns of a short format.
fn remainder_short<F: Short>(x: F, y: F, kind: Kind) -> Told<Residue<u32>>
    ensures answer { remainder_meaning result.answer ≡ remainder F.format kind (F.bits x) (F.bits y) }
    ensures denormal { result.denormal ≡ told_denormal F.format (remainder F.format kind (F.bits x) (F.bits y)).number (F.bits x) (F.bits y) }
{
    let dividend = x.word();
    let divisor = y.word();
    if is_quick::<F>(dividend, divisor, kind) {
        return told(remainder_quick::<F>(dividend, divisor, kind));
    }
    remainder_general(x, y, kind)
}

impl Remainder for Binary16 {
    fn remainder(self, divisor: Binary16, kind: Kind) -> Told<Residue<u32>> {
        remainder_short(self, divisor, kind)
    }
}

impl Remainder for Binary32 {
    fn remainder(self, divisor: Binary32, kind: Kind) -> Told<Residue<u32>> {
        remainder_short(self, divisor, kind)
    }
}

fn told_counted(counted: Counted<Residue<u32>>) -> Counted<Told<Residue<u32>>>
    ensures answer { result.value.answer ≡ Ok counted.value }
    ensures denormal { result.value.denormal ≡ false }
    ensures divisions { result.divisions ≡ counted.divisions }
{
    let residue = counted.value;
    Counted {
        value: told(residue),
        divisions: counted.divisions,
    }
}

// Any two patterns of binary64, with the divisions by the divisor's significand.
#[inline(never)]
fn remainder64_general(x: Binary64, y: Binary64, kind: Kind) -> Counted<Told<Residue<u32>>>
    ensures answer { remainder_meaning result.value.answer ≡ remainder binary64 kind x.0 y.0 }
    ensures denormal { result.value.denormal ≡ told_denormal binary64 (remainder binary64 kind x.0 y.0).number x.0 y.0 }
    ensures divisions { result.divisions ≡ divisions binary64 x.0 y.0 }
{
    let counted = remainder_counted(unpack(x), unpack(y), kind);
    let answer = counted.value;
    let denormal = any_denormal(x, y);
    Counted {
        value: Told { answer, denormal },
        divisions: counted.divisions,
    }
}

// Normal numbers have ways of their own, below the divisor's field and from it on.
pub fn remainder64_counted(x: Binary64, y: Binary64, kind: Kind) -> Counted<Told<Residue<u32>>>
    ensures answer { remainder_meaning result.value.answer ≡ remainder binary64 kind x.0 y.0 }
    ensures denormal { result.value.denormal ≡ told_denormal binary64 (remainder binary64 kind x.0 y.0).number x.0 y.0 }
    ensures divisions { result.divisions ≡ divisions binary64 x.0 y.0 }
    ensures few { result.divisions ≤ gap_of (class_of binary64 x.0) (class_of binary64 y.0) / 11 + 2 }
{
    if is_below(x.0, y.0) {
        if is_kept(x.0, y.0, kind) {
            return told_counted(remainder_kept(x.0, y.0, kind));
        }
        return remainder64_general(x, y, kind);
    }
    if is_common(x.0, y.0) {
        return told_counted(remainder_common(x.0, y.0, kind));
    }
    remainder64_general(x, y, kind)
}

impl Remainder for Binary64 {
    fn remainder(self, divisor: Binary64, kind: Kind) -> Told<Residue<u32>> {
        remainder64_counted(self, divisor, kind).value
    }
}

impl Remainder for X87 {
    fn remainder(self, divisor: X87, kind: Kind) -> Told<Residue<u32>> {
        if !quick_x87::are_normal(self, divisor) {
            return remainder_general(self, divisor, kind);
        }
        if quick_x87::is_below(self, divisor) {
            if quick_x87::is_kept(self, divisor, kind) {
                return told(quick_x87::remainder_kept(self, divisor, kind));
            }
            return remainder_general(self, divisor, kind);
        }
        told(quick_x87::remainder_common(self, divisor, kind))
    }
}
