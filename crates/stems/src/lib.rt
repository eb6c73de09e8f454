// Stem files: judged, opened, and their points taken out one by one. The count is compared, and used for nothing else.
#![tactic(auto)]

ghost use Rattle.std.specs.Prelude.{◌≡◌, ◌≤◌, eqb, length, IfOk};
ghost use Rattle.std.specs.Float.{binary64};
ghost use Rattle.std.specs.Float.Ieee.{of_bits};
ghost use Rattle.definitions.specs.Numbers.{first};
ghost use Rattle.definitions.specs.Bytes.{of_bytes};
ghost use Rattle.definitions.specs.Stem.{header_length, mark, file_mark, file_kind, file_period, file_origin, judging, stem, stem_points};
ghost use Rattle.gauges.specs.Refused.{told, numbered};
ghost use Rattle.stems.specs.Opened.{answer_of, patterns_placed, placed_of};

use floats::float_of;
use gauges::{Gauge, GaugeFields, StemRefusal};
use little_endian::Number;
use points::Point;

pub const HEADER_LENGTH: usize = 26;

pub const POINT_LENGTH: usize = 16;

// The most points that a file may declare.
pub const POINT_LIMIT: u32 = 4000;

pub const VERSION: u16 = 1;

// A point by its patterns: every bit of a NaN is there.
#[derive(Clone, Copy, Debug, PartialEq, Eq)]
pub struct PointPatterns {
    pub reading: u64,
    pub radius: u64,
}

// The same as floats, where all NaNs are one.
impl From<PointPatterns> for Point {
    ghost from_gives = { λ patterns point. point ≡ record { reading = of_bits binary64 patterns.reading; radius = of_bits binary64 patterns.radius } };

    fn from(patterns: PointPatterns) -> Point {
        Point {
            reading: float_of(patterns.reading),
            radius: float_of(patterns.radius),
        }
    }
}

fn has_mark(file: &[u8]) -> bool
    requires { header_length ≤ length file.now }
    ensures { result ≡ eqb (file_mark file.now) (of_bytes mark) }
{
    file.starts_with(b"STM")
}

// The fields of a file's gauge, or the first check that applies.
#[tactic(auto, using(std::proofs::lemmas::Bool::Decides::nat_tests), unfolding(definitions::specs::Numbers::first))]
fn judge_stem(file: &[u8]) -> Result<GaugeFields, StemRefusal>
    ensures number { told result ≡ first (judging file.now) }
    ensures fields { IfOk result (λ fields. fields ≡ record { kind = file_kind file.now; period = file_period file.now; origin = file_origin file.now }) }
{
    if file.len() < HEADER_LENGTH {
        return Err(StemRefusal::BadLength);
    }
    if !has_mark(file) {
        return Err(StemRefusal::BadMark);
    }
    if u16::load(file, 3) != VERSION {
        return Err(StemRefusal::BadVersion);
    }
    let fields = GaugeFields {
        kind: u32::from(file[5]),
        period: u64::load(file, 10),
        origin: u64::load(file, 18),
    };
    if 1 < fields.kind {
        return Err(StemRefusal::BadKind);
    }
    let count = u32::load(file, 6);
    let whole = HEADER_LENGTH + POINT_LENGTH * (count as usize);
    if POINT_LIMIT < count {
        return Err(StemRefusal::BadCount);
    }
    if file.len() != whole {
        return Err(StemRefusal::BadLength);
    }
    if !fields.is_good() {
        return Err(StemRefusal::BadGauge);
    }
    Ok(fields)
}

pub fn open_stem(file: &[u8]) -> Result<Gauge, StemRefusal>
    ensures { numbered result ≡ answer_of (stem file.now) }
{
    let fields = judge_stem(file)?;
    Ok(fields.into())
}

// The part of the file that holds the points, empty if the file is refused.
pub fn points_of(file: &[u8]) -> &[u8]
    ensures { result.now ≡ stem_points (stem file.now) }
{
    match judge_stem(file) {
        Ok(_) => &file[HEADER_LENGTH..],
        Err(_) => &file[..0],
    }
}

// The patterns at a place of such a part, if there is a point.
pub fn patterns_at(points: &[u8], place: usize) -> Option<PointPatterns>
    ensures { result ≡ patterns_placed points.now place }
{
    if points.len() / POINT_LENGTH <= place {
        return None;
    }
    let at = POINT_LENGTH * place;
    Some(PointPatterns {
        reading: u64::load(points, at),
        radius: u64::load(points, at + 8),
    })
}

// The same as floats.
pub fn point_at(points: &[u8], place: usize) -> Option<Point>
    ensures { result ≡ placed_of points.now place }
{
    patterns_at(points, place).map(Point::from)
}
