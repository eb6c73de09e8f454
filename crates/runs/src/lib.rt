// A run of steps of one size with a budget, on operands that have been judged. Only crates of this repository call it, with operands as
// `unpack` makes them.
#![tactic(auto)]

ghost use Rattle.std.specs.Prelude.{◌≡◌, true};
ghost use Rattle.definitions.specs.Format.{x87};
ghost use Rattle.definitions.specs.Steps.{run};
ghost use Rattle.definitions.specs.Reports.{sized};
ghost use Rattle.operands.specs.Operand.{value_operand, divisor_in};
ghost use Rattle.packing.specs.Stands.{StandsValue, StandsDivisor};
ghost use Rattle.runs.specs.Ran.{ran_of};

use definitions::{Kind, Progress};
use operands::{Operand, Unpacked};
use partial::step_value;
use std::num::wrapping_add_u32;

// What a run comes to: what is left, the low 32 bits of the quotient, and how many steps it took.
#[derive(Clone, Copy)]
pub struct Ran {
    pub value: Operand,
    pub quotient: u32,
    pub steps: u32,
}

// A run leaves at the first step that finishes, or at the spent budget.
pub fn run_value(
    kind: Kind,
    x: Operand,
    y: Option<Unpacked>,
    size: u32,
    budget: u32,
) -> Progress<Ran>
    requires { StandsValue x87 x × StandsDivisor x87 y × (sized size ≡ true) }
    ensures { result ≡ ran_of (run kind size budget (divisor_in x87.smallest y) (value_operand x87.smallest x)) }
{
    let mut value = x;
    let mut quotient: u32 = 0;
    for taken in 0..budget {
        match step_value(kind, value, y, size) {
            Progress::Finished(left) => {
                return Progress::Finished(Ran {
                    value: left.value,
                    quotient: wrapping_add_u32(quotient, left.quotient),
                    steps: taken + 1,
                });
            }
            Progress::Unfinished(left) => {
                value = left.value;
                quotient = wrapping_add_u32(quotient, left.quotient);
            }
        }
    }
    Progress::Unfinished(Ran {
        value,
        quotient,
        steps: budget,
    })
}
