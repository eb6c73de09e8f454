// A call of a size on two operands: its checks, and its answer. A step is a run of budget one.
ghost use Rattle.std.specs.Prelude.{◌≡◌, true, ◌++◌, ℕ, ℤ, Ok};
ghost use Rattle.definitions.specs.Class.{Class};
ghost use Rattle.definitions.specs.Format.{x87, pattern_of};
ghost use Rattle.definitions.specs.Numbers.{first, accepted, dividing};
ghost use Rattle.definitions.specs.Reports.{nothing, sized, calling};
ghost use Rattle.definitions.specs.Answers.{steps_meaning, joined};
ghost use Rattle.definitions.specs.Remainder.{quotient_bits};
ghost use Rattle.operands.specs.Operand.{operand_of, class_in};
ghost use Rattle.checks.specs.Verdict.{verdict_number};
ghost use Rattle.packing.specs.Stands.{StandsValue};
ghost use Rattle.runs.specs.Ran.{ran_in};
ghost use Rattle.steps.specs.Called.{ran_report, call_report};

use checks::pair::judge_pair;
use definitions::{Kind, Progress, Reached, Refusal, Refused};
use facts::nan::refused;
use formats::X87;
use operands::{Operand, divisor_of};
use packing::held::Held;
use packing::pack::pack;
use quotients::quotient_bits;
use runs::{Ran, run_value};

// A size that a step or a run takes.
pub fn is_sized(size: u32) -> bool
    ensures { result ≡ sized size }
{
    32 <= size && size <= 63
}

// The size, 6, then the operands.
fn judge_call(x: Operand, y: Operand, size: u32) -> Result<(), Refusal>
    ensures { (s : ℤ) (a b : Class) → x ≡ operand_of s a → y ≡ operand_of s b → verdict_number result ≡ first (calling nothing size ++ dividing a b) }
{
    if !is_sized(size) {
        return Err(Refusal::BadSize);
    }
    judge_pair(x, y)
}

// What a run came to, written down.
fn reached(ran: Ran) -> Reached
    requires { StandsValue x87 ran.value }
    ensures value { joined result.value ≡ pattern_of x87 (class_in x87.smallest ran.value) }
    ensures quotient { result.quotient ≡ quotient_bits ran.quotient }
    ensures steps { result.steps ≡ ran.steps }
{
    let operand = ran.value;
    Reached {
        value: pack(Held::<X87>::new(operand)),
        quotient: quotient_bits(ran.quotient),
        steps: ran.steps,
    }
}

fn answer(run: Progress<Ran>) -> Progress<Reached>
    requires { StandsValue x87 (ran_in run).value }
    ensures { (unfinished : ℕ) → steps_meaning unfinished (Ok result) ≡ ran_report unfinished run }
{
    match run {
        Progress::Finished(ran) => Progress::Finished(reached(ran)),
        Progress::Unfinished(ran) => Progress::Unfinished(reached(ran)),
    }
}

// A run of the budget. Whether an unfinished one is a partial step or a spent budget is for the caller to say.
pub fn call(
    x: Held<X87>,
    y: Held<X87>,
    size: u32,
    kind: Kind,
    budget: u32,
) -> Result<Progress<Reached>, Refused>
    ensures { (unfinished : ℕ) → accepted unfinished ≡ true → steps_meaning unfinished result ≡ call_report unfinished kind size budget (class_in x87.smallest x) (class_in x87.smallest y) }
{
    let dividend = x.operand();
    let divisor = y.operand();
    if let Err(why) = judge_call(dividend, divisor, size) {
        return Err(refused(why, x, y));
    }
    Ok(answer(run_value(kind, dividend, divisor_of(divisor), size, budget)))
}
