// All output packets: measured, then written.
ghost use Rattle.std.specs.Prelude.{◌≡◌};
ghost use Rattle.packets.specs.PacketLists.{fits_packets, lent_room};
ghost use Rattle.packets.specs.code.PacketRuns.{Totals, Closing, Ready, WroteMerged, OneCloses, NoneCloses, Outcome};

use crate::packets::lists::Packets;
use crate::packets::walk::Pieces;
use bitio::refusal::Refusal;
use container::units::Sizes;

// Whether packets of these sizes, with their times, have room.
fn have_room(sizes: Sizes, out: &[u8], ends: &[u32], times: &[u64]) -> bool
    ensures { result ≡ fits_packets sizes.bytes sizes.units (lent_room out.now ends.now times.now) }
{
    sizes.have_room(out, ends) && sizes.units <= times.len()
}

// How many bytes and packets go out, the first that closes being c.
fn measure(packets: Packets, c: usize) -> Sizes
    requires { Closing packets.units.bytes.now packets.units.ends.now packets.times.now c }
    ensures { Totals packets.entry.units.bytes.now packets.entry.units.ends.now packets.entry.times.now result.bytes result.units }
{
    let mut bytes: usize = 0;
    let mut units: usize = 0;
    for place in Pieces::new(packets, c) {
        bytes = bytes.saturating_add(packets.piece_len(place));
        units += 1;
    }
    Sizes { bytes, units }
}

// Writes them, where their room is known.
fn write(packets: Packets, c: usize, out: &mut [u8], out_ends: &mut [u32], out_times: &mut [u64])
    requires { Ready packets.units.bytes.now packets.units.ends.now packets.times.now c out.old out_ends.old out_times.old }
    ensures { WroteMerged packets.entry.units.bytes.now packets.entry.units.ends.now packets.entry.times.now out.old out_ends.old out_times.old out.new out_ends.new out_times.new }
{
    let mut w: usize = 0;
    for (u, place) in Pieces::new(packets, c).enumerate() {
        w = packets.put_piece(place, out, w);
        out_ends[u] = w as u32;
        out_times[u] = packets.times[place.close];
    }
}

// Packets of which the first that closes is c.
pub(crate) fn merge_some(
    packets: Packets,
    c: usize,
    out: &mut [u8],
    out_ends: &mut [u32],
    out_times: &mut [u64],
) -> Result<Sizes, Refusal>
    requires { OneCloses packets.units.bytes.now packets.units.ends.now packets.times.now c }
    ensures { Outcome packets.entry.units.bytes.now packets.entry.units.ends.now packets.entry.times.now out.old out_ends.old out_times.old result out.new out_ends.new out_times.new }
{
    let sizes = measure(packets, c);
    if !have_room(sizes, out, out_ends, out_times) {
        return Err(Refusal::NoRoom);
    }
    write(packets, c, out, out_ends, out_times);
    Ok(sizes)
}

// Packets of which none closes: all go out as one.
pub(crate) fn merge_none(
    packets: Packets,
    out: &mut [u8],
    out_ends: &mut [u32],
    out_times: &mut [u64],
) -> Result<Sizes, Refusal>
    requires { NoneCloses packets.units.bytes.now packets.units.ends.now packets.times.now }
    ensures { Outcome packets.entry.units.bytes.now packets.entry.units.ends.now packets.entry.times.now out.old out_ends.old out_times.old result out.new out_ends.new out_times.new }
{
    let n = packets.times.len();
    let Some(i) = packets.first_full(0, n) else {
        return Ok(Sizes { bytes: 0, units: 0 });
    };
    let sizes = Sizes {
        bytes: packets.run_len(0, n, true),
        units: 1,
    };
    if !have_room(sizes, out, out_ends, out_times) {
        return Err(Refusal::NoRoom);
    }
    packets.put_run(0, n, true, out, 0);
    out_ends[0] = sizes.bytes as u32;
    out_times[0] = packets.times[i];
    Ok(sizes)
}
