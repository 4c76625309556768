// The units of an assembled list, gathered one behind the other with the end of each, as the containers' writers take them.
ghost use Rattle.std.specs.Prelude.{◌≡◌, length};
ghost use Rattle.bitio.specs.Lent.{pasted};
ghost use Rattle.bitio.specs.Limits.{capped};
ghost use Rattle.container.specs.Stream.{stream_bytes};
ghost use Rattle.container.specs.Units.{ends_of};
ghost use Rattle.container.specs.Limits.{room_in};
ghost use Rattle.playback.specs.Lent.{store, Stores};
ghost use Rattle.playback.specs.Gather.{units_listed, gathered, HasRoom};

use assemble::unit::UnitList;
use bitio::refusal::Refusal;
use container::units::Sizes;
use obu::writer::put_bytes;

// How many units there are, and how many bytes they have, as far as a usize counts.
fn sizes(listed: UnitList) -> Sizes
    ensures { result ≡ record { bytes = capped (length (stream_bytes (units_listed listed.entry))); units = length listed.entry.list.now } }
{
    let mut bytes: usize = 0;
    for entry in listed.list {
        bytes = bytes.saturating_add(listed.named(*entry).len());
    }
    Sizes {
        bytes,
        units: listed.list.len(),
    }
}

// Writes the units and their ends, where their room is known.
fn put_units(listed: UnitList, units: &mut [u8], unit_ends: &mut [u32])
    requires { HasRoom (room_in units.old unit_ends.old) (units_listed listed) }
    ensures units_after { units.new ≡ pasted units.old 0 (stream_bytes (units_listed listed.entry)) }
    ensures unit_ends_after { unit_ends.new ≡ pasted unit_ends.old 0 (ends_of 0 (units_listed listed.entry)) }
{
    let mut at: usize = 0;
    for (i, entry) in listed.list.iter().enumerate() {
        at = put_bytes(units, at, listed.named(*entry));
        unit_ends[i] = at as u32;
    }
}

// The units that the entries name: their bytes to `units`, the end of each to `unit_ends`. A refusal changes neither.
pub fn gather(listed: UnitList, units: &mut [u8], unit_ends: &mut [u32]) -> Result<Sizes, Refusal>
    ensures { Stores (gathered (units_listed listed.entry)) result (record {
      entry = store units.old unit_ends.old;
      exit = store units.new unit_ends.new;
    }) }
{
    let sizes = sizes(listed);
    if !sizes.have_room(units, unit_ends) {
        return Err(Refusal::NoRoom);
    }
    put_units(listed, units, unit_ends);
    Ok(sizes)
}
