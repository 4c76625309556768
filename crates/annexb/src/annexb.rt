// Units from and to Annex B (document 01, 'Units from and to Annex B').
ghost use Rattle.std.specs.Prelude.{◌≡◌, length};
ghost use Rattle.bitio.specs.Refusal.{says};
ghost use Rattle.container.specs.Limits.{bytes_room, room_in};
ghost use Rattle.container.specs.Container.{annexb, read, write_at};
ghost use Rattle.container.specs.Units.{sizes_of, bytes_after, ends_after, count_of, out_after};

use bitio::limits::check_limit;
use bitio::refusal::Refusal;
use container::lists::Units;
use container::units::{Sizes, have_room};

mod count;
mod fill;
mod measure;
mod part;
mod parts;
mod write;

// The units of Annex B in written form into out, the end of each into ends; a refusal changes nothing.
pub fn split_annexb(data: &[u8], out: &mut [u8], ends: &mut [u32]) -> Result<Sizes, Refusal>
    ensures result_value { says result ≡ sizes_of (read annexb (room_in out.old ends.old) «data».now) }
    ensures out_after { out.new ≡ bytes_after (read annexb (room_in out.old ends.old) «data».now) out.old }
    ensures ends_after { ends.new ≡ ends_after (read annexb (room_in out.old ends.old) «data».now) ends.old }
{
    check_limit(data)?;
    if data.is_empty() {
        return Err(Refusal::NoBytes);
    }
    let sizes = measure::measure(data)?;
    if !sizes.have_room(out, ends) {
        return Err(Refusal::NoRoom);
    }
    fill::fill(data, out, ends);
    Ok(sizes)
}

// Units, whose bytes and ends are given, as Annex B into out, each in one frame unit; a refusal changes nothing.
pub fn write_annexb(units: &[u8], unit_ends: &[u32], out: &mut [u8]) -> Result<usize, Refusal>
    ensures result_value { says result ≡ count_of (write_at annexb (bytes_room (length out.old)) units.now unit_ends.now) }
    ensures out_after { out.new ≡ out_after (write_at annexb (bytes_room (length out.old)) units.now unit_ends.now) out.old }
{
    check_limit(units)?;
    let listed = Units::new(units, unit_ends)?;
    let bytes = count::count_units(listed)?;
    if !have_room(bytes, out) {
        return Err(Refusal::NoRoom);
    }
    write::put_units(listed, out);
    Ok(bytes)
}
