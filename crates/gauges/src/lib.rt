// Gauges as floats and by their fields, which of them a file can give, and what a stem is refused for.
#![tactic(auto)]

ghost use Rattle.std.specs.Prelude.{◌≡◌, not};
ghost use Rattle.definitions.specs.Format.{binary64, class_of};
ghost use Rattle.definitions.specs.Fold.{bad};
ghost use Rattle.definitions.specs.Stem.{gauge_of, is_positive, good, good_fields};
ghost use Rattle.gauges.specs.Held.{gauge_held, gauge_bits, fields_of};
ghost use Rattle.gauges.specs.Refused.{number_of};

use checks::{is_infinite, is_nan};
use floats::{float_of, pattern_of};
use formats::Binary64;
use operands::Operand;
use packing::unpack::unpack;

// What a file, or a call that writes one, is refused for. The numbers are those that C is told.
#[derive(Clone, Copy, Debug, PartialEq, Eq)]
pub enum StemRefusal {
    UnequalLists = 9,
    BadMark = 10,
    BadVersion = 11,
    BadKind = 12,
    BadCount = 13,
    BadLength = 14,
    BadGauge = 15,
    ShortRoom = 16,
}

impl From<StemRefusal> for u8 {
    ghost from_gives = { λ refusal number. number ≡ number_of refusal };

    fn from(refusal: StemRefusal) -> u8 {
        refusal as u8
    }
}

// A turn with its period, or a roller with its period and its origin.
#[derive(Clone, Copy, Debug, PartialEq)]
pub enum Gauge {
    Turn { period: f64 },
    Roller { period: f64, origin: f64 },
}

// A gauge as a file or a C host hands it over. The kind is 0 for a turn, whose origin is all zeros, and 1 for a roller; another can be
// handed over too, and is refused.
#[derive(Clone, Copy, Debug, PartialEq, Eq)]
pub struct GaugeFields {
    pub kind: u32,
    pub period: u64,
    pub origin: u64,
}

impl From<GaugeFields> for Gauge {
    ghost from_gives = { λ fields gauge. gauge ≡ gauge_held (gauge_of fields.kind fields.period fields.origin) };

    fn from(fields: GaugeFields) -> Gauge {
        let period = float_of(fields.period);
        if fields.kind == 0 {
            Gauge::Turn { period }
        } else {
            Gauge::Roller {
                period,
                origin: float_of(fields.origin),
            }
        }
    }
}

impl From<Gauge> for GaugeFields {
    ghost from_gives = { λ gauge fields. fields ≡ fields_of (gauge_bits gauge) };

    fn from(gauge: Gauge) -> GaugeFields {
        match gauge {
            Gauge::Turn { period } => GaugeFields {
                kind: 0,
                period: pattern_of(period),
                origin: 0,
            },
            Gauge::Roller { period, origin } => GaugeFields {
                kind: 1,
                period: pattern_of(period),
                origin: pattern_of(origin),
            },
        }
    }
}

fn is_positive(pattern: u64) -> bool
    ensures { result ≡ is_positive (class_of binary64 pattern) }
{
    let operand = unpack(Binary64(pattern)).operand();
    match operand {
        Operand::Finite(value) => !value.negative,
        _ => false,
    }
}

fn is_finite(pattern: u64) -> bool
    ensures { result ≡ not (bad pattern) }
{
    let operand = unpack(Binary64(pattern)).operand();
    !is_nan(operand) && !is_infinite(operand)
}

impl Gauge {
    pub fn is_good(self) -> bool
        ensures { result ≡ good (gauge_bits self) }
    {
        match self {
            Gauge::Turn { period } => is_positive(pattern_of(period)),
            Gauge::Roller { period, origin } => {
                is_positive(pattern_of(period)) && is_finite(pattern_of(origin))
            }
        }
    }
}

impl GaugeFields {
    pub fn is_good(self) -> bool
        ensures { result ≡ good_fields self.kind self.period self.origin }
    {
        Gauge::from(self).is_good() && (self.kind != 0 || self.origin == 0)
    }
}
