// The exports of stem files.
#![tactic(auto)]

ghost use Rattle.std.specs.Prelude.{◌≡◌, IfOk};
ghost use Rattle.definitions.specs.Numbers.{first};
ghost use Rattle.definitions.specs.Exports.{after};
ghost use Rattle.definitions.specs.Stem.{stem, stem_number, file_kind, file_count, file_period, file_origin, header_length, gauge_of, handing, fold_reading};
ghost use Rattle.definitions.specs.StemWriter.{write_fields};
ghost use Rattle.gauges.specs.Refused.{told};

use floats::{float_of, pattern_of};
use gauges::{GaugeFields, StemRefusal};
use points::{Point, fold_point};
use stem_writer::write_fields;
use stems::{HEADER_LENGTH, POINT_LENGTH, open_stem, points_of};

// C lends each field of a gauge by itself, and is told a refusal by its number.
#[unsafe(no_mangle)]
pub extern "C" fn zk_stem_open(
    file: &[u8],
    kind: &mut u32,
    period: &mut u64,
    origin: &mut u64,
    start: &mut usize,
    count: &mut usize,
) -> u8
    ensures number { result ≡ stem_number (stem file.now) }
    ensures kind { kind.new ≡ after result (file_kind file.now) kind.old }
    ensures period { period.new ≡ after result (file_period file.now) period.old }
    ensures origin { origin.new ≡ after result (file_origin file.now) origin.old }
    ensures start { start.new ≡ after result header_length start.old }
    ensures count { count.new ≡ after result (file_count file.now) count.old }
{
    match open_stem(file) {
        Ok(gauge) => {
            let fields = GaugeFields::from(gauge);
            *kind = fields.kind;
            *period = fields.period;
            *origin = fields.origin;
            *start = HEADER_LENGTH;
            *count = points_of(file).len() / POINT_LENGTH;
            0
        }
        Err(refusal) => refusal.into(),
    }
}

fn fold_fields(fields: GaugeFields, reading: u64) -> Result<u64, StemRefusal>
    ensures number { told result ≡ first (handing fields.kind fields.period fields.origin) }
    ensures reading { IfOk result (λ x. x ≡ fold_reading (gauge_of fields.kind fields.period fields.origin) reading) }
{
    if 1 < fields.kind {
        return Err(StemRefusal::BadKind);
    }
    if fields.kind == 0 && fields.origin != 0 {
        return Err(StemRefusal::BadGauge);
    }
    let point = Point {
        reading: float_of(reading),
        radius: 0.0,
    };
    let answer = fold_point(fields.into(), point)?;
    Ok(pattern_of(answer.reading))
}

#[unsafe(no_mangle)]
pub extern "C" fn zk_stem_fold(kind: u32, period: u64, origin: u64, reading: &mut u64) -> u8
    ensures number { result ≡ first (handing kind period origin) }
    ensures reading { reading.new ≡ after result (fold_reading (gauge_of kind period origin) reading.old) reading.old }
{
    let fields = GaugeFields {
        kind,
        period,
        origin,
    };
    match fold_fields(fields, *reading) {
        Ok(answer) => {
            *reading = answer;
            0
        }
        Err(refusal) => refusal.into(),
    }
}

#[unsafe(no_mangle)]
pub extern "C" fn zk_stem_write(
    kind: u32,
    period: u64,
    origin: u64,
    readings: &[u64],
    radii: &[u64],
    room: &mut [u8],
    written: &mut usize,
) -> u8
    ensures number { result ≡ (write_fields kind period origin readings.now radii.now room.old).number }
    ensures room { room.new ≡ (write_fields kind period origin readings.now radii.now room.old).room }
    ensures written { written.new ≡ after result (write_fields kind period origin readings.now radii.now room.old).written written.old }
{
    let fields = GaugeFields {
        kind,
        period,
        origin,
    };
    match write_fields(fields, readings, radii, room) {
        Ok(length) => {
            *written = length;
            0
        }
        Err(refusal) => refusal.into(),
    }
}
