// Operands of a format.
ghost use Rattle.std.specs.Prelude.{◌≡◌};
ghost use Rattle.packing.specs.Stands.{Stands};
ghost use Rattle.operands.specs.declared.Operand.{Operand};

use operands::Operand;
use shapes::format::Format;
use std::marker::{Model, PhantomData};

// An operand that stands for a value of the format: only such a one has a pattern there. A clause sees the operand.
#[derive(Clone, Copy)]
pub struct Held<F: Format> {
    operand: Operand,
    of: PhantomData<F>,
}

impl<F: Format> Model for Held<F> {
    ghost Value = { Operand };

    ghost view = { λ s. s.operand };

    ghost invariant = { λ s. Stands F.format s.operand };

    ghost inverse = { λ o. record { operand = o; of = record {} } };
}

impl<F: Format> Held<F> {
    pub fn new(operand: Operand) -> Self
        requires { Stands F.format operand }
        ensures { result ≡ operand }
    {
        Held {
            operand,
            of: PhantomData,
        }
    }

    pub fn operand(self) -> Operand
        ensures is { result ≡ self }
        ensures stands { Stands F.format result }
    {
        self.operand
    }
}
