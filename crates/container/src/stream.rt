// Units from a stream, and a stream from units (document 01).
ghost use Rattle.std.specs.Prelude.{◌≡◌, length};
ghost use Rattle.bitio.specs.Parse.{accepted};
ghost use Rattle.bitio.specs.Refusal.{says};
ghost use Rattle.container.specs.Limits.{bytes_room, room_in};
ghost use Rattle.container.specs.Stream.{stream_units};
ghost use Rattle.container.specs.Units.{sizes_of, bytes_after, ends_after, count_of, out_after};
ghost use Rattle.container.specs.Container.{stream, read, write_at};
ghost use Rattle.container.specs.code.Survey.{Surveyed, sizes_fit};
ghost use Rattle.container.specs.code.Extents.{UnitRanges, UnitLength, UnitRoom, UnitWrote, StreamFrames, StreamRoom};

use crate::extents::{Extent, Extents};
use crate::lists::Units;
use crate::ranges::{put_written, written_len};
use crate::survey::{Tally, survey};
use crate::units::Sizes;
use bitio::limits::check_limit;
use bitio::refusal::Refusal;
use obu::writer::put_bytes;

// How many bytes a unit has, written.
fn unit_len(s: &[u8], x: Extent) -> usize
    requires { UnitRanges s.now x.lead.start x.lead.end x.obus.start x.obus.end }
    ensures { UnitLength s.now x.lead.start x.lead.end x.obus.start x.obus.end result }
{
    let n = written_len(s, x.lead, true);
    n + written_len(s, x.obus, false)
}

// Writes a unit at `to`, where its room is known.
fn put_unit(s: &[u8], x: Extent, out: &mut [u8], to: usize) -> usize
    requires { UnitRoom s.now x.lead.start x.lead.end x.obus.start x.obus.end out.old to }
    ensures { UnitWrote s.now x.lead.start x.lead.end x.obus.start x.obus.end out.old to result out.new }
{
    let w = put_written(s, x.lead, true, out, to);
    put_written(s, x.obus, false, out, w)
}

// Measures all units of a stream that is read through and has so many frames.
fn measure(s: &[u8], frames: usize) -> Sizes
    requires { StreamFrames s.now frames }
    ensures { sizes_of (stream_units s.now) ≡ accepted result }
{
    let mut bytes: usize = 0;
    let mut units: usize = 0;
    for x in Extents::new(s, frames) {
        bytes += unit_len(s, x);
        units += 1;
    }
    Sizes { bytes, units }
}

// Whether the units have room. They are measured only where all OBUs, with every delimiter, have none.
fn is_roomy(s: &[u8], tally: Tally, out: &[u8], ends: &[u32]) -> bool
    requires { Surveyed s.now tally.frames tally.bytes }
    ensures { result ≡ sizes_fit (sizes_of (stream_units s.now)) (room_in out.now ends.now) }
{
    let most = Sizes {
        bytes: tally.bytes,
        units: tally.frames.max(1),
    };
    most.have_room(out, ends) || measure(s, tally.frames).have_room(out, ends)
}

// Writes all units, where their room is known.
fn write(s: &[u8], frames: usize, out: &mut [u8], ends: &mut [u32]) -> Sizes
    requires { StreamRoom s.now frames out.old ends.old }
    ensures s_value { sizes_of (stream_units s.now) ≡ accepted result }
    ensures out_after { out.new ≡ bytes_after (stream_units s.now) out.old }
    ensures ends_after { ends.new ≡ ends_after (stream_units s.now) ends.old }
{
    let mut w: usize = 0;
    let mut u: usize = 0;
    for x in Extents::new(s, frames) {
        w = put_unit(s, x, out, w);
        ends[u] = w as u32;
        u += 1;
    }
    Sizes { bytes: w, units: u }
}

// A stream's units: their bytes to `out`, the end of each to `ends`. A refusal changes neither.
pub fn split_obu_stream(data: &[u8], out: &mut [u8], ends: &mut [u32]) -> Result<Sizes, Refusal>
    ensures result_value { says result ≡ sizes_of (read stream (room_in out.old ends.old) «data».now) }
    ensures out_after { out.new ≡ bytes_after (read stream (room_in out.old ends.old) «data».now) out.old }
    ensures ends_after { ends.new ≡ ends_after (read stream (room_in out.old ends.old) «data».now) ends.old }
{
    check_limit(data)?;
    let tally = survey(data)?;
    if !is_roomy(data, tally, out, ends) {
        return Err(Refusal::NoRoom);
    }
    Ok(write(data, tally.frames, out, ends))
}

// A stream of units: their bytes as they are. A refusal changes nothing.
pub fn write_obu_stream(units: &[u8], unit_ends: &[u32], out: &mut [u8]) -> Result<usize, Refusal>
    ensures result_value { says result ≡ count_of (write_at stream (bytes_room (length out.old)) units.now unit_ends.now) }
    ensures out_after { out.new ≡ out_after (write_at stream (bytes_room (length out.old)) units.now unit_ends.now) out.old }
{
    check_limit(units)?;
    let listed = Units::new(units, unit_ends)?;
    if listed.bytes.len() > out.len() {
        return Err(Refusal::NoRoom);
    }
    Ok(put_bytes(out, 0, listed.bytes))
}
