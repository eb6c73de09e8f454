// Places that are found one at a time.
ghost use Rattle.places.specs.Places.{place_at};

use crate::{Divisor, MARK, Place, Places};
use definitions::Kind;
use formats::Binary64;
use quotients::shown_bits;
use remainder::patterns::Remainder;

// Each by a call of its own: any dividend, by any divisor.
#[derive(Clone, Copy)]
pub struct Alone {
    pub divisor: Divisor,
    pub kind: Kind,
}

impl Places for Alone {
    ghost kind = { λ a. a.kind };

    ghost divisor = { λ a. a.divisor.pattern };

    // A NaN's place gets that NaN, quiet, and an infinity's the house NaN.
    fn place(&mut self, x: u64) -> Place {
        let divisor = Binary64(self.divisor.pattern);
        match Binary64(x).remainder(divisor, self.kind).answer {
            Ok(residue) => Place {
                value: residue.value.low,
                byte: shown_bits(residue.quotient),
            },
            Err(refused) => Place {
                value: refused.value.low,
                byte: MARK,
            },
        }
    }
}
