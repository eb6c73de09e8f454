// Points as floats, and the fold of one: what is divided, then the remainder of patterns.
#![tactic(auto)]

ghost use Rattle.std.specs.Prelude.{◌≡◌, true, cond};
ghost use Rattle.definitions.specs.Format.{binary64, class_of, house_nan};
ghost use Rattle.definitions.specs.Remainder.{remainder};
ghost use Rattle.definitions.specs.declared.Kind.TheVariants.{Truncated};
ghost use Rattle.definitions.specs.Fold.{bad};
ghost use Rattle.definitions.specs.Stem as stem;
ghost use Rattle.definitions.specs.Stem.{period_of, is_positive, good, fold_reading, fold_point};
ghost use Rattle.gauges.specs.Held.{gauge_bits};
ghost use Rattle.points.specs.Held.{point_bits, folded_bits};

use definitions::Kind;
use difference::patterns::difference64;
use floats::{float_of, pattern_of};
use formats::Binary64;
use gauges::{Gauge, StemRefusal};
use remainder::patterns::Remainder;

#[derive(Clone, Copy, Debug, PartialEq)]
pub struct Point {
    pub reading: f64,
    pub radius: f64,
}

fn period_of(gauge: Gauge) -> u64
    ensures { result ≡ period_of (gauge_bits gauge) }
{
    match gauge {
        Gauge::Turn { period } | Gauge::Roller { period, .. } => pattern_of(period),
    }
}

// What is divided.
fn shifted(gauge: Gauge, reading: u64) -> u64
    ensures { result ≡ stem.shifted (gauge_bits gauge) reading }
{
    match gauge {
        Gauge::Turn { .. } => reading,
        Gauge::Roller { origin, .. } => difference64(reading, pattern_of(origin)),
    }
}

// The remainder by a period above zero. What is not finite has none, and becomes the house NaN, whatever NaN it was.
fn remainder_by(period: u64, x: u64) -> u64
    requires { is_positive (class_of binary64 period) ≡ true }
    ensures { result ≡ cond (bad x) (house_nan binary64) (remainder binary64 Truncated x period).value }
{
    let told = Binary64(x).remainder(Binary64(period), Kind::Truncated);
    match told.answer {
        Ok(residue) => residue.value.low,
        Err(_) => Binary64::HOUSE_NAN,
    }
}

fn fold_reading(gauge: Gauge, reading: u64) -> u64
    requires { good (gauge_bits gauge) ≡ true }
    ensures { result ≡ fold_reading (gauge_bits gauge) reading }
{
    remainder_by(period_of(gauge), shifted(gauge, reading))
}

// Of a float that is a NaN its bits are left free: as a pattern, which C gets, the folded reading is the house NaN.
pub fn fold_point(gauge: Gauge, point: Point) -> Result<Point, StemRefusal>
    ensures { folded_bits point result ≡ fold_point (gauge_bits gauge) (point_bits point) }
{
    if !gauge.is_good() {
        return Err(StemRefusal::BadGauge);
    }
    let reading = fold_reading(gauge, pattern_of(point.reading));
    Ok(Point {
        reading: float_of(reading),
        radius: point.radius,
    })
}
