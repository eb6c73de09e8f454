// The divisor of a whole list.
ghost use Rattle.std.specs.Prelude.{◌≡◌};
ghost use Rattle.definitions.specs.Format.{binary64, class_of};
ghost use Rattle.definitions.specs.Numbers.{first};
ghost use Rattle.definitions.specs.Fold.{dividing_list};

// It is neither NaN nor zero.
#[derive(Clone, Copy)]
pub struct Divisor {
    pub pattern: u64,
    pub ghost divides: { first (dividing_list (class_of binary64 pattern)) ≡ 0 },
}
