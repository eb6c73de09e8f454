// The four formats, each by the type of its patterns, and the constants of each, named once.
#![tactic(auto)]

ghost use Rattle.std.specs.Prelude.{refl};
ghost use Rattle.definitions.specs.Format.{binary16, binary32, binary64, x87, words};
ghost use Rattle.definitions.specs.declared.Layout.TheVariants.{Hidden, Explicit};
ghost use Rattle.shapes.proofs.Sounds.{sound16, sound32, sound64, sound80};

use definitions::{Layout, Pattern};
use shapes::format::Format;

// A pattern of binary16.
#[derive(Clone, Copy)]
pub struct Binary16(pub u16);

impl Format for Binary16 {
    const PRECISION: u32 = 11;

    const BIAS: u32 = 15;

    const SMALLEST: i32 = -24;

    const LAYOUT: Layout = Layout::Hidden;

    ghost PRECISION = { 11 };

    ghost BIAS = { 15 };

    ghost SMALLEST = { binary16.smallest };

    ghost LAYOUT = { Hidden };

    ghost format = { binary16 };

    ghost bits = { λ x. x.0 };

    fn words(self) -> Pattern {
        Pattern {
            high: 0,
            low: self.0 as u64,
        }
    }

    ghost sound = { sound16 };

    ghost precision_is = { refl };

    ghost bias_is = { refl };

    ghost smallest_is = { refl };

    ghost layout_is = { refl };
}

// A pattern of binary32.
#[derive(Clone, Copy)]
pub struct Binary32(pub u32);

impl Format for Binary32 {
    const PRECISION: u32 = 24;

    const BIAS: u32 = 127;

    const SMALLEST: i32 = -149;

    const LAYOUT: Layout = Layout::Hidden;

    ghost PRECISION = { 24 };

    ghost BIAS = { 127 };

    ghost SMALLEST = { binary32.smallest };

    ghost LAYOUT = { Hidden };

    ghost format = { binary32 };

    ghost bits = { λ x. x.0 };

    fn words(self) -> Pattern {
        Pattern {
            high: 0,
            low: self.0 as u64,
        }
    }

    ghost sound = { sound32 };

    ghost precision_is = { refl };

    ghost bias_is = { refl };

    ghost smallest_is = { refl };

    ghost layout_is = { refl };
}

// A pattern of binary64.
#[derive(Clone, Copy)]
pub struct Binary64(pub u64);

impl Binary64 {
    // What a refusal shows as its value.
    pub const HOUSE_NAN: u64 = 0x7FF8_0000_0000_0000;
}

impl Format for Binary64 {
    const PRECISION: u32 = 53;

    const BIAS: u32 = 1023;

    const SMALLEST: i32 = -1074;

    const LAYOUT: Layout = Layout::Hidden;

    ghost PRECISION = { 53 };

    ghost BIAS = { 1023 };

    ghost SMALLEST = { binary64.smallest };

    ghost LAYOUT = { Hidden };

    ghost format = { binary64 };

    ghost bits = { λ x. x.0 };

    fn words(self) -> Pattern {
        Pattern {
            high: 0,
            low: self.0,
        }
    }

    ghost sound = { sound64 };

    ghost precision_is = { refl };

    ghost bias_is = { refl };

    ghost smallest_is = { refl };

    ghost layout_is = { refl };
}

// A pattern of x87's 80-bit format: a 64-bit significand whose leading digit stands in it, and a 16-bit sign and exponent word.
#[derive(Clone, Copy)]
pub struct X87 {
    pub significand: u64,
    pub word: u16,
}

impl Format for X87 {
    const PRECISION: u32 = 64;

    const BIAS: u32 = 16383;

    const SMALLEST: i32 = -16445;

    const LAYOUT: Layout = Layout::Explicit;

    ghost PRECISION = { 64 };

    ghost BIAS = { 16383 };

    ghost SMALLEST = { x87.smallest };

    ghost LAYOUT = { Explicit };

    ghost format = { x87 };

    ghost bits = { λ x. words x.word x.significand };

    fn words(self) -> Pattern {
        Pattern {
            high: self.word as u64,
            low: self.significand,
        }
    }

    ghost sound = { sound80 };

    ghost precision_is = { refl };

    ghost bias_is = { refl };

    ghost smallest_is = { refl };

    ghost layout_is = { refl };
}
