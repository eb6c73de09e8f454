// The answer block of the step and the run, as it is lent to them. Only the exports call this, with a block of the right length.
#![tactic(auto)]

ghost use Rattle.std.specs.Prelude.{◌≡◌, true, ◌<◌, length};
ghost use Rattle.definitions.specs.Format.{x87, patterns};
ghost use Rattle.definitions.specs.Numbers.{accepted};
ghost use Rattle.definitions.specs.Reports.{block_length};
ghost use Rattle.definitions.specs.Block.{block_of, block_after};
ghost use Rattle.definitions.specs.Answers.{joined, steps_meaning};

use definitions::{Progress, Reached, Refused};
use little_endian::Number;
use quotients::shown_bits;

// The value's significand and word, the number, the quotient that is shown, the steps and the quotient.
fn fill_block(block: &mut [u8], number: u8, reached: Reached)
    requires { (length block.old ≡ block_length) × (joined reached.value < patterns x87) }
    ensures { block.new ≡ block_of (record { number = number; value = joined reached.value; quotient = reached.quotient; steps = reached.steps }) }
{
    reached.value.low.store(block, 0);
    (reached.value.high as u16).store(block, 8);
    block[10] = number;
    block[11] = shown_bits(reached.quotient);
    reached.steps.store(block, 12);
    reached.quotient.store(block, 16);
}

// An answer's number, and its block if it is no refusal.
#[tactic(auto, using(laws::proofs::Refusals::refusal_refuses), unfolding(definitions::specs::Answers::steps_meaning, definitions::specs::Block::block_after))]
pub fn write(block: &mut [u8], answer: Result<Progress<Reached>, Refused>, unfinished: u8) -> u8
    requires { (length block.old ≡ block_length) × ((steps_meaning unfinished answer).value < patterns x87) × (accepted unfinished ≡ true) }
    ensures number { result ≡ (steps_meaning unfinished answer).number }
    ensures block { block.new ≡ block_after block.old (steps_meaning unfinished answer) }
{
    match answer {
        Ok(Progress::Finished(reached)) => {
            fill_block(block, 0, reached);
            0
        }
        Ok(Progress::Unfinished(reached)) => {
            fill_block(block, unfinished, reached);
            unfinished
        }
        Err(refused) => refused.why.into(),
    }
}
