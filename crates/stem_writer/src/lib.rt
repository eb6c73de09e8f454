// Stem files, written into lent room. Everything is judged before the first byte is written; points are patterns, so that every bit of
// a NaN is kept.
#![tactic(auto)]

ghost use Rattle.std.specs.Prelude.{◌≡◌, ◌++◌, ◌+◌, ◌*◌, ◌≤◌, ◌<◌, length, IfOk};
ghost use Rattle.std.proofs.lemmas.List.Edits.{sets};
ghost use Rattle.definitions.specs.Numbers.{first};
ghost use Rattle.definitions.specs.Bytes.{bytes_of};
ghost use Rattle.definitions.specs.Stem.{header_length, point_length};
ghost use Rattle.definitions.specs.StemWriter.{points_of, header, point_bytes, writing, write_fields, write_stem};
ghost use Rattle.gauges.specs.Held.{gauge_bits};
ghost use Rattle.gauges.specs.Refused.{told};
ghost use Rattle.stem_writer.specs.Written.{write_meaning};

use gauges::{Gauge, GaugeFields, StemRefusal};
use little_endian::Number;
use stems::{HEADER_LENGTH, POINT_LENGTH, POINT_LIMIT, VERSION};

// The length of the file, or the first check that applies.
#[tactic(auto, using(std::proofs::lemmas::Bool::Decides::nat_tests), unfolding(definitions::specs::Numbers::first))]
fn judge_writing(
    fields: GaugeFields,
    readings: usize,
    radii: usize,
    room: usize,
) -> Result<usize, StemRefusal>
    ensures number { told result ≡ first (writing fields.kind fields.period fields.origin readings radii room) }
    ensures whole { IfOk result (λ whole. whole ≡ header_length + point_length * readings) }
{
    if readings != radii {
        return Err(StemRefusal::UnequalLists);
    }
    if 1 < fields.kind {
        return Err(StemRefusal::BadKind);
    }
    if (POINT_LIMIT as usize) < readings {
        return Err(StemRefusal::BadCount);
    }
    if !fields.is_good() {
        return Err(StemRefusal::BadGauge);
    }
    let whole = HEADER_LENGTH + POINT_LENGTH * readings;
    if room < whole {
        return Err(StemRefusal::ShortRoom);
    }
    Ok(whole)
}

// The fields in their row.
fn write_header(room: &mut [u8], fields: GaugeFields, count: u32)
    requires { (header_length ≤ length room.old) × (fields.kind < 256) }
    ensures { room.new ≡ sets room.old 0 (header fields.kind count fields.period fields.origin) }
{
    room[0] = b'S';
    room[1] = b'T';
    room[2] = b'M';
    VERSION.store(room, 3);
    room[5] = fields.kind as u8;
    count.store(room, 6);
    fields.period.store(room, 10);
    fields.origin.store(room, 18);
}

// A reading and then its radius.
fn write_point(room: &mut [u8], at: usize, reading: u64, radius: u64)
    requires { at + point_length ≤ length room.old }
    ensures { room.new ≡ sets room.old at (bytes_of 8 reading ++ bytes_of 8 radius) }
{
    reading.store(room, at);
    radius.store(room, at + 8);
}

// Every point, behind a header.
fn write_points(room: &mut [u8], readings: &[u64], radii: &[u64])
    requires { (length readings.now ≡ length radii.now) × (header_length + point_length * length readings.now ≤ length room.old) }
    ensures { room.new ≡ sets room.old header_length (point_bytes (points_of readings.now radii.now)) }
{
    for (i, reading) in readings.iter().enumerate() {
        write_point(room, HEADER_LENGTH + POINT_LENGTH * i, *reading, radii[i]);
    }
}

// By the fields of a gauge, as a C host hands it over. The answer is the length of the file.
pub fn write_fields(
    fields: GaugeFields,
    readings: &[u64],
    radii: &[u64],
    room: &mut [u8],
) -> Result<usize, StemRefusal>
    ensures { write_meaning result room.new ≡ write_fields fields.kind fields.period fields.origin readings.now radii.now room.old }
{
    let count = readings.len();
    let written = judge_writing(fields, count, radii.len(), room.len())?;
    write_header(room, fields, count as u32);
    write_points(room, readings, radii);
    Ok(written)
}

// By a gauge.
pub fn write_stem(
    gauge: Gauge,
    readings: &[u64],
    radii: &[u64],
    room: &mut [u8],
) -> Result<usize, StemRefusal>
    ensures { write_meaning result room.new ≡ write_stem (gauge_bits gauge) readings.now radii.now room.old }
{
    let fields = GaugeFields::from(gauge);
    write_fields(fields, readings, radii, room)
}
