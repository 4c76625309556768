// The operations of the crates container, annexb and packets.
ghost use Rattle.std.specs.Prelude.{◌≡◌};
ghost use Rattle.bitio.specs.Refusal.{says};
ghost use Rattle.protocol.specs.Answers.{line, filled, parted};
ghost use Rattle.protocol.specs.Told.{told_in, SameMemory};
ghost use Rattle.replay_units.specs.Containers.{sizes_told, stream_told, annexb_told, wstream_told, wannexb_told, canon_told, packets_told};

use annexb::annexb::{split_annexb, write_annexb};
use bitio::refusal::Refusal;
use container::stream::{split_obu_stream, write_obu_stream};
use container::units::Sizes;
use packets::packets::{canonicalize_tu, merge_frameless_packets};
use protocol::answer::{Answer, count, parts, refused};
use protocol::memory::Memory;

fn of_sizes(answer: Result<Sizes, Refusal>) -> Answer
    ensures { line result ≡ sizes_told (says answer) }
{
    answer.map_or_else(refused, |sizes| parts(sizes.bytes, sizes.units))
}

// kept: tried as a trait of both containers with a ghost `Container`. It proves, and is no plainer: its clauses, two impls that
// hold the four calls, and two generic functions are 56 lines for the 28 of stream, annexb, wstream and wannexb
// stream DATA
pub fn stream(s: &[u8], memory: &mut [u8], ends: &mut [u32]) -> Answer
    ensures { parted (line result) memory.new ends.new ≡ stream_told s.now memory.old ends.old }
{
    of_sizes(split_obu_stream(s, memory, ends))
}

// annexb DATA
pub fn annexb(s: &[u8], memory: &mut [u8], ends: &mut [u32]) -> Answer
    ensures { parted (line result) memory.new ends.new ≡ annexb_told s.now memory.old ends.old }
{
    of_sizes(split_annexb(s, memory, ends))
}

// wstream UNIT ..
pub fn wstream(s: &[u8], unit_ends: &[u32], memory: &mut [u8]) -> Answer
    ensures { filled (line result) memory.new ≡ wstream_told s.now unit_ends.now memory.old }
{
    count(write_obu_stream(s, unit_ends, memory))
}

// wannexb UNIT ..
pub fn wannexb(s: &[u8], unit_ends: &[u32], memory: &mut [u8]) -> Answer
    ensures { filled (line result) memory.new ≡ wannexb_told s.now unit_ends.now memory.old }
{
    count(write_annexb(s, unit_ends, memory))
}

// canon UNIT
pub fn canon(unit: &[u8], memory: &mut [u8]) -> Answer
    ensures { filled (line result) memory.new ≡ canon_told unit.now memory.old }
{
    count(canonicalize_tu(unit, memory))
}

// packets TIME PACKET ..
pub fn packets(
    s: &[u8],
    packet_ends: &[u32],
    times: &[u64],
    memory: &mut Memory<'_, '_, '_>,
) -> Answer
    ensures told { told_in (line result) memory.new ≡ packets_told s.now packet_ends.now times.now memory.old.bytes.now memory.old.ends.now memory.old.numbers.now }
    ensures same { SameMemory memory.old memory.new }
{
    let merged = merge_frameless_packets(
        s,
        packet_ends,
        times,
        memory.bytes,
        memory.ends,
        memory.numbers,
    );
    Answer {
        numbers: merged.map_or(0, |sizes| sizes.units),
        ..of_sizes(merged)
    }
}
