// The step and the run of two x87 patterns.
ghost use Rattle.std.specs.Prelude.{◌≡◌, ◌&&◌, ◌||◌};
ghost use Rattle.definitions.specs.Format.{x87, words};
ghost use Rattle.definitions.specs.Facts.{denormal, told_denormal};
ghost use Rattle.definitions.specs.Reports.{nothing, sized, step_report, run_report};
ghost use Rattle.definitions.specs.Answers.{step_meaning, run_meaning};

use crate::call::{call, is_sized};
use definitions::{Kind, Progress, Reached, Told};
use facts::denormal::any_denormal;
use formats::X87;
use packing::unpack::unpack;
use quick_x87::{are_normal, is_below, step_common};

// A call whose size is refused tells nothing of its operands.
fn told_denormal(x: X87, y: X87, size: u32) -> bool
    ensures { result ≡ sized size && (denormal x87 (words x.word x.significand) || denormal x87 (words y.word y.significand)) }
{
    is_sized(size) && any_denormal(x, y)
}

// Any two patterns. Compiled into its caller it would make that way slower.
#[inline(never)]
fn step80_general(x: X87, y: X87, size: u32, kind: Kind) -> Told<Progress<Reached>>
    ensures answer { step_meaning result.answer ≡ step_report nothing kind size (words x.word x.significand) (words y.word y.significand) }
    ensures denormal { result.denormal ≡ told_denormal x87 (step_report nothing kind size (words x.word x.significand) (words y.word y.significand)).number (words x.word x.significand) (words y.word y.significand) }
{
    Told {
        answer: call(unpack(x), unpack(y), size, kind, 1),
        denormal: told_denormal(x, y, size),
    }
}

// Two normal numbers have a way of their own, where the dividend's field is not below the divisor's.
pub fn step80(x: X87, y: X87, size: u32, kind: Kind) -> Told<Progress<Reached>>
    ensures answer { step_meaning result.answer ≡ step_report nothing kind size (words x.word x.significand) (words y.word y.significand) }
    ensures denormal { result.denormal ≡ told_denormal x87 (step_report nothing kind size (words x.word x.significand) (words y.word y.significand)).number (words x.word x.significand) (words y.word y.significand) }
{
    if !is_sized(size) || !are_normal(x, y) || is_below(x, y) {
        return step80_general(x, y, size, kind);
    }
    Told {
        answer: Ok(step_common(x, y, size, kind)),
        denormal: false,
    }
}

pub fn run80(x: X87, y: X87, size: u32, kind: Kind, budget: u32) -> Told<Progress<Reached>>
    ensures answer { run_meaning result.answer ≡ run_report nothing kind size budget (words x.word x.significand) (words y.word y.significand) }
    ensures denormal { result.denormal ≡ told_denormal x87 (run_report nothing kind size budget (words x.word x.significand) (words y.word y.significand)).number (words x.word x.significand) (words y.word y.significand) }
{
    Told {
        answer: call(unpack(x), unpack(y), size, kind, budget),
        denormal: told_denormal(x, y, size),
    }
}
