// The places of a folded list: what each gets, by a divisor that is neither NaN nor zero. Only crates of this repository call these.
#![tactic(auto)]

mod alone;
mod divisor;
mod shared;

ghost use Rattle.std.specs.Prelude.{◌≡◌, ℕ, ◌==◌};
ghost use Rattle.definitions.specs.declared.Kind.{Kind};
ghost use Rattle.places.specs.Places.{place_at};

pub use alone::Alone;
pub use divisor::Divisor;
pub use shared::Shared;

// What one place of the two lent lists gets. Where there is no quotient the byte is a mark: an Option of the byte was tried, and is one word
// too many to come back in registers (a list of one takes a tenth more instructions).
#[derive(Clone, Copy)]
pub struct Place {
    pub value: u64,
    pub byte: u8,
}

// No quotient that is shown is it.
const MARK: u8 = 255;

impl Place {
    pub fn is_marked(self) -> bool
        ensures { result ≡ (self.byte == 255) }
    {
        self.byte == MARK
    }
}

// How the places of a list are found: each is that of its dividend, by one kind and one divisor.
pub trait Places {
    ghost kind: { Self → Kind };

    ghost divisor: { Self → ℕ };

    fn place(&mut self, x: u64) -> Place
        ensures place { result ≡ place_at (kind self.old) (divisor self.old) x }
        ensures kind { kind self.new ≡ kind self.old }
        ensures divisor { divisor self.new ≡ divisor self.old };
}
