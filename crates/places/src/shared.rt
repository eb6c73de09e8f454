// Places that share a prepared divisor.
ghost use Rattle.std.specs.Prelude.{◌≡◌, true};
ghost use Rattle.quick.specs.Common.{spread_of, common};
ghost use Rattle.places.specs.Places.{place_at};

use crate::{Alone, Place, Places};
use prepared::WithPowers;
use quick::{SIGN, field_of, is_common, settle, spread, written};
use quotients::shown_bits;

// The divisor that is prepared is that of a call of its own. One that is not normal is prepared for nothing: no place asks for it.
#[derive(Drop)]
pub struct Shared<'a> {
    pub alone: Alone,
    pub prepared: &'a mut WithPowers,
    pub ghost same: { prepared.now ≡ spread_of alone.divisor.pattern },
}

impl<'a> Shared<'a> {
    // Two normal numbers, the dividend's field not below the divisor's: all but the division is as in a call of its own.
    fn place_common(&mut self, x: u64) -> Place
        requires { common x self.old.alone.divisor.pattern ≡ true }
        ensures place { result ≡ place_at self.old.alone.kind self.old.alone.divisor.pattern x }
        ensures alone { self.new.alone ≡ self.old.alone }
    {
        let y = self.alone.divisor.pattern;
        let field = field_of(y);
        let left = self
            .prepared
            .divide(spread(x), (field_of(x) - field) as u32);
        let settled = settle(self.alone.kind, SIGN <= x, left, spread(y));
        Place {
            value: written(settled.negative, settled.rest, field),
            byte: shown_bits(settled.quotient),
        }
    }
}

impl<'a> Places for Shared<'a> {
    ghost kind = { λ s. s.alone.kind };

    ghost divisor = { λ s. s.alone.divisor.pattern };

    // Two normal numbers by the prepared divisor, and all else by a call of its own.
    fn place(&mut self, x: u64) -> Place {
        if is_common(x, self.alone.divisor.pattern) {
            self.place_common(x)
        } else {
            self.alone.place(x)
        }
    }
}
