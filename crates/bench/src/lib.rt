// What bench/ measures and oracle/ compares, exported to C.
#![tactic(auto)]

mod boards;
mod scans;

ghost use Rattle.std.specs.Prelude.{◌≡◌, cond as pick, length, nat_le};
ghost use Rattle.bitio.specs.Parse.{answer};
ghost use Rattle.bitio.specs.Lent.{lent};
ghost use Rattle.container.specs.Limits.{bytes_room, room_in};
ghost use Rattle.container.specs.Units.{sizes_of, bytes_after, ends_after, count_of, out_after};
ghost use Rattle.container.specs.Container.{stream, annexb, read, write_at};
ghost use Rattle.packets.specs.Packets.{canonical_at};
ghost use Rattle.packets.specs.PacketLists.{bytes_of, lent_room, merged_at, times_after};
ghost use Rattle.assemble.specs.Whole.{six};
ghost use Rattle.bench.specs.Boards.{boards_outcome, Told};
ghost use Rattle.bench.specs.Counts.{units_or_none, bytes_or_none};
ghost use Rattle.bench.specs.Scans.{scan_sum};

use annexb::annexb::{split_annexb, write_annexb};
use assemble::multi::Buffers;
use boards::assemble_numbers;
use container::stream::write_obu_stream;
use obu::writer::put_bytes;
use packets::packets::{canonicalize_tu, merge_frameless_packets};
use pictures::settings::Settings;
use scans::scan_sum;

// The copy that every writer makes: src to the front of out, or nothing and 0 if it has no room.
#[tactic(auto, unfolding(bitio::specs::Lent::lent, bitio::specs::Lent::has_room))]
#[unsafe(no_mangle)]
pub extern "C" fn bench_put_bytes(src: &[u8], out: &mut [u8]) -> usize
    ensures value { result ≡ pick (nat_le (length src.now) (length out.old)) (length src.now) 0 }
    ensures out_after { out.new ≡ lent out.old 0 src.now }
{
    if out.len() < src.len() {
        return 0;
    }
    put_bytes(out, 0, src)
}

// The units of Annex B: how many there are, or 0 after a refusal.
#[unsafe(no_mangle)]
pub extern "C" fn bench_split_annexb(data: &[u8], out: &mut [u8], ends: &mut [u32]) -> usize
    ensures value { result ≡ units_or_none (sizes_of (read annexb (room_in out.old ends.old) «data».now)) }
    ensures out_after { out.new ≡ bytes_after (read annexb (room_in out.old ends.old) «data».now) out.old }
    ensures ends_after { ends.new ≡ ends_after (read annexb (room_in out.old ends.old) «data».now) ends.old }
{
    split_annexb(data, out, ends).map_or(0, |sizes| sizes.units)
}

// A stream of units: how many bytes it has, or 0 after a refusal.
#[unsafe(no_mangle)]
pub extern "C" fn bench_write_obu_stream(units: &[u8], unit_ends: &[u32], out: &mut [u8]) -> usize
    ensures value { result ≡ bytes_or_none (count_of (write_at stream (bytes_room (length out.old)) units.now unit_ends.now)) }
    ensures out_after { out.new ≡ out_after (write_at stream (bytes_room (length out.old)) units.now unit_ends.now) out.old }
{
    write_obu_stream(units, unit_ends, out).unwrap_or(0)
}

// Annex B of units: how many bytes it has, or 0 after a refusal.
#[unsafe(no_mangle)]
pub extern "C" fn bench_write_annexb(units: &[u8], unit_ends: &[u32], out: &mut [u8]) -> usize
    ensures value { result ≡ bytes_or_none (count_of (write_at annexb (bytes_room (length out.old)) units.now unit_ends.now)) }
    ensures out_after { out.new ≡ out_after (write_at annexb (bytes_room (length out.old)) units.now unit_ends.now) out.old }
{
    write_annexb(units, unit_ends, out).unwrap_or(0)
}

// Packets, those without a frame joined: how many there are, or 0 after a refusal.
#[unsafe(no_mangle)]
pub extern "C" fn bench_merge_packets(
    packets: &[u8],
    packet_ends: &[u32],
    times: &[u64],
    out: &mut [u8],
    out_ends: &mut [u32],
    out_times: &mut [u64],
) -> usize
    ensures value { result ≡ units_or_none (sizes_of (answer bytes_of (merged_at (lent_room out.old out_ends.old out_times.old) packets.now packet_ends.now times.now))) }
    ensures out_after { out.new ≡ bytes_after (answer bytes_of (merged_at (lent_room out.old out_ends.old out_times.old) packets.now packet_ends.now times.now)) out.old }
    ensures out_ends_after { out_ends.new ≡ ends_after (answer bytes_of (merged_at (lent_room out.old out_ends.old out_times.old) packets.now packet_ends.now times.now)) out_ends.old }
    ensures out_times_after { out_times.new ≡ times_after (merged_at (lent_room out.old out_ends.old out_times.old) packets.now packet_ends.now times.now) out_times.old }
{
    merge_frameless_packets(packets, packet_ends, times, out, out_ends, out_times).map_or(
        0,
        |sizes| sizes.units,
    )
}

// A unit without stray delimiters: how many bytes it has, or 0 after a refusal.
#[unsafe(no_mangle)]
pub extern "C" fn bench_canonicalize_tu(unit: &[u8], out: &mut [u8]) -> usize
    ensures value { result ≡ bytes_or_none (count_of (canonical_at (bytes_room (length out.old)) unit.now)) }
    ensures out_after { out.new ≡ out_after (canonical_at (bytes_room (length out.old)) unit.now) out.old }
{
    canonicalize_tu(unit, out).unwrap_or(0)
}

// Assembly by way of segment structs, at most 64: answered as magbelo_assemble does, or 4294967295 where the numbers are
// no whole records, or of more segments.
#[unsafe(no_mangle)]
pub extern "C" fn bench_assemble_segments(
    picture: &[u8],
    segments: &[u64],
    gop_size: u64,
    fps: u32,
    fps_den: u32,
    list: &mut [u32],
    cues: &mut [u32],
    pictures: &mut [u8],
    ends: &mut [u32],
    shows: &mut [u8],
    header: &mut [u8],
) -> u64
    ensures { Told (boards_outcome picture.now segments.now (record { gop = gop_size; fps = fps; den = fps_den })) result (record {
      entry = six list.old cues.old pictures.old ends.old shows.old header.old;
      exit = six list.new cues.new pictures.new ends.new shows.new header.new;
    }) }
{
    let settings = Settings {
        gop: gop_size,
        fps,
        den: fps_den,
    };
    let mut buffers = Buffers {
        list,
        cues,
        pictures,
        ends,
        shows,
        header,
    };
    assemble_numbers(picture, segments, settings, &mut buffers)
}

// The ends of all frame headers, in bits, each frame scanned from the slots that those before it left: summed modulo 2^64,
// nothing for a refused one.
#[unsafe(no_mangle)]
pub extern "C" fn bench_scan(sequence: &[u8], frames: &[u8], frame_ends: &[u32]) -> u64
    ensures { result ≡ scan_sum sequence.now frames.now frame_ends.now }
{
    scan_sum(sequence, frames, frame_ends)
}
