// The two round trips of stem files as programs. Nothing is known here of the reader and the writer but what they promise.
#![tactic(auto)]

ghost use Rattle.std.specs.Prelude.{◌≡◌, cond, ◌++◌, ◌/◌, eqb, length, drop};
ghost use Rattle.definitions.specs.Stem.{point_length, gauge_of, stem, stem_points};
ghost use Rattle.definitions.specs.StemWriter.{points_of, points_in, write_fields};
ghost use Rattle.gauges.specs.Refused.{told, numbered};
ghost use Rattle.round_trips.specs.Trips.{opens_as, taken_out, again};

use gauges::{Gauge, GaugeFields, StemRefusal};
use stem_writer::{write_fields, write_stem};
use stems::{POINT_LENGTH, PointPatterns, open_stem, patterns_at, points_of};

// Writes, and opens what was written.
pub fn write_and_open(
    fields: GaugeFields,
    readings: &[u64],
    radii: &[u64],
    room: &mut [u8],
) -> Result<Gauge, StemRefusal>
    ensures { numbered result ≡ opens_as (gauge_of fields.kind fields.period fields.origin) (write_fields fields.kind fields.period fields.origin readings.now radii.now room.old).number }
{
    let written = write_fields(fields, readings, radii, room)?;
    open_stem(&room[..written])
}

// Writes, and takes a point out of what was written.
pub fn write_and_take(
    fields: GaugeFields,
    readings: &[u64],
    radii: &[u64],
    room: &mut [u8],
    place: usize,
) -> Option<PointPatterns>
    ensures { result ≡ taken_out (write_fields fields.kind fields.period fields.origin readings.now radii.now room.old).number readings.now radii.now place }
{
    match write_fields(fields, readings, radii, room) {
        Ok(written) => patterns_at(points_of(&room[..written]), place),
        Err(_) => None,
    }
}

// Every point of a part, into lists that have a place for each.
fn take_points(part: &[u8], readings: &mut [u64], radii: &mut [u64])
    requires { (length readings.old ≡ length part.now / point_length) × (length radii.old ≡ length part.now / point_length) }
    ensures { points_in part.now ≡ points_of readings.new radii.new }
{
    for i in 0..readings.len() {
        let point = patterns_at(part, i).unwrap();
        readings[i] = point.reading;
        radii[i] = point.radius;
    }
}

// Opens a file, takes its points out, and writes it again; or touches nothing.
pub fn open_and_write(
    file: &[u8],
    readings: &mut [u64],
    radii: &mut [u64],
    room: &mut [u8],
) -> Result<(), StemRefusal>
    ensures number { told result ≡ again file.now (length readings.old) (length radii.old) (length room.old) }
    ensures room { room.new ≡ cond (eqb (told result) 0) (file.now ++ drop (length file.now) room.old) room.old }
    ensures taken { told result ≡ 0 → points_in (stem_points (stem file.now)) ≡ points_of readings.new radii.new }
    ensures kept { (told result ≡ 0 → ⊥) → (readings.new ≡ readings.old) × (radii.new ≡ radii.old) }
{
    let gauge = open_stem(file)?;
    let part = points_of(file);
    let count = part.len() / POINT_LENGTH;
    if readings.len() != count {
        return Err(StemRefusal::UnequalLists);
    }
    if radii.len() != count {
        return Err(StemRefusal::UnequalLists);
    }
    if room.len() < file.len() {
        return Err(StemRefusal::ShortRoom);
    }
    take_points(part, readings, radii);
    write_stem(gauge, readings, radii, room)?;
    Ok(())
}
