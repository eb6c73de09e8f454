// The exports of the step and the run, on numbers and a lent block of 20 bytes for the answer.
#![tactic(auto)]

ghost use Rattle.std.specs.Prelude.{◌≡◌};
ghost use Rattle.definitions.specs.Format.{words};
ghost use Rattle.definitions.specs.Reports.{step_report, run_report};
ghost use Rattle.definitions.specs.Block.{kind_of, block_after};
ghost use Rattle.definitions.specs.Exports.{lending};

use block::write;
use definitions::Refusal;
use formats::X87;
use steps::patterns::{run80, step80};

// The length of the block, and the numbers of a partial step and of a run with a spent budget.
const BLOCK_LENGTH: usize = 20;

const PARTIAL: u8 = 1;

const SPENT: u8 = 7;

#[unsafe(no_mangle)]
pub extern "C" fn zk_step80(
    x: u64,
    xw: u16,
    y: u64,
    yw: u16,
    size: u32,
    kind: u32,
    block: &mut [u8],
) -> u8
    ensures number { result ≡ (step_report (lending block.old) (kind_of kind) size (words xw x) (words yw y)).number }
    ensures block { block.new ≡ block_after block.old (step_report (lending block.old) (kind_of kind) size (words xw x) (words yw y)) }
{
    if block.len() != BLOCK_LENGTH {
        return Refusal::BadLength.into();
    }
    let dividend = X87 {
        significand: x,
        word: xw,
    };
    let divisor = X87 {
        significand: y,
        word: yw,
    };
    let told = step80(dividend, divisor, size, kind.into());
    write(block, told.answer, PARTIAL)
}

#[unsafe(no_mangle)]
pub extern "C" fn zk_run80(
    x: u64,
    xw: u16,
    y: u64,
    yw: u16,
    size: u32,
    kind: u32,
    budget: u32,
    block: &mut [u8],
) -> u8
    ensures number { result ≡ (run_report (lending block.old) (kind_of kind) size budget (words xw x) (words yw y)).number }
    ensures block { block.new ≡ block_after block.old (run_report (lending block.old) (kind_of kind) size budget (words xw x) (words yw y)) }
{
    if block.len() != BLOCK_LENGTH {
        return Refusal::BadLength.into();
    }
    let dividend = X87 {
        significand: x,
        word: xw,
    };
    let divisor = X87 {
        significand: y,
        word: yw,
    };
    let told = run80(dividend, divisor, size, kind.into(), budget);
    write(block, told.answer, SPENT)
}
