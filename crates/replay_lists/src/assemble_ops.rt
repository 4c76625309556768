// The operation of the crate assemble.
ghost use Rattle.std.specs.Prelude.{◌≡◌};
ghost use Rattle.bitio.specs.Lent.{pasted};
ghost use Rattle.blocks.specs.Numbers.{segment_count};
ghost use Rattle.assemble.specs.Whole.{outcome, lent_of, SameBuffers};
ghost use Rattle.protocol.specs.Answers.{line};
ghost use Rattle.protocol.specs.Told.{told_in, SameMemory};
ghost use Rattle.replay_lists.specs.Lists.{settings_of, segment_records, slices_lent, outcome_told, assemble_told};

use crate::assembled::Slices;
use assemble::multi::{Buffers, assemble_multi};
use bitio::ends::{end_of, start_of};
use blocks::numbers::{Segment, Segments, WIDTH, put_record, segment_count};
use pictures::settings::Settings;
use protocol::answer::Answer;
use protocol::lent::{BYTE_MARK, BYTES_LENT, END_MARK, ENDS_LENT, Lent};
use protocol::memory::{Memory, number_at};

// No line has more segments, six characters each.
const SEGMENTS: usize = 10923;

const NUMBERS: usize = WIDTH * SEGMENTS;

const SHOWS: usize = 5 * SEGMENTS;

// The first three of a request's numbers; behind them are the frames of each segment.
fn settings_of(numbers: &[u64]) -> Settings
    ensures { result ≡ settings_of numbers.now }
{
    Settings {
        gop: number_at(numbers, 0),
        fps: (number_at(numbers, 1) % 0x1_0000_0000) as u32,
        den: (number_at(numbers, 2) % 0x1_0000_0000) as u32,
    }
}

// The record of each segment, whose units lie one behind the other.
fn put_segments(ends: &[u32], numbers: &[u64], segments: &mut [u64])
    ensures { segments.new ≡ pasted segments.old 0 (segment_records ends.now numbers.now 0 (segment_count segments.old)) }
{
    for i in 0..segment_count(segments) {
        let middle = end_of(ends, 2 * i) as u64;
        put_record(
            segments,
            i,
            Segment {
                key_start: start_of(ends, 2 * i) as u64,
                key_end: middle,
                golden_start: middle,
                golden_end: end_of(ends, 2 * i + 1) as u64,
                frames: number_at(numbers, 3 + i),
            },
        );
    }
}

// Assembly, and what it left in the slices.
fn assemble_into(
    settings: Settings,
    segments: Segments<'_, '_>,
    buffers: &mut Buffers<'_, '_, '_, '_, '_, '_>,
    memory: &mut Memory<'_, '_, '_>,
) -> Answer
    ensures told { told_in (line result) memory.new ≡ outcome_told (outcome segments.entry.picture.now segments.entry.numbers.now settings (lent_of buffers.old)) (lent_of buffers.old) memory.old.bytes.now memory.old.ends.now memory.old.numbers.now }
    ensures same { SameMemory memory.old memory.new }
    ensures same_buffers { SameBuffers buffers.old buffers.new }
{
    let made = assemble_multi(segments, settings, buffers);
    Slices::of(buffers).put_handed(made, memory)
}

// Into slices of which list, cues and picture bytes are lent exactly.
fn assemble_lent(
    settings: Settings,
    lent: Lent,
    segments: Segments<'_, '_>,
    memory: &mut Memory<'_, '_, '_>,
) -> Answer
    ensures told { told_in (line result) memory.new ≡ outcome_told (outcome segments.entry.picture.now segments.entry.numbers.now settings (slices_lent lent)) (slices_lent lent) memory.old.bytes.now memory.old.ends.now memory.old.numbers.now }
    ensures same { SameMemory memory.old memory.new }
{
    let list = &mut [END_MARK; ENDS_LENT];
    let cues = &mut [END_MARK; ENDS_LENT];
    let pictures = &mut [BYTE_MARK; BYTES_LENT];
    let ends = &mut [END_MARK; ENDS_LENT];
    let shows = &mut [BYTE_MARK; SHOWS];
    let header = &mut [BYTE_MARK; ENDS_LENT];
    let mut buffers = Buffers {
        list: &mut list[..lent.ends.min(ENDS_LENT)],
        cues: &mut cues[..lent.numbers.min(ENDS_LENT)],
        pictures: &mut pictures[..lent.bytes.min(BYTES_LENT)],
        ends,
        shows,
        header,
    };
    assemble_into(settings, segments, &mut buffers, memory)
}

// assemble GOP FPS DEN KEY GOLDEN FRAMES ..
pub fn assemble(
    lent: Lent,
    s: &[u8],
    ends: &[u32],
    fields: &[u64],
    memory: &mut Memory<'_, '_, '_>,
) -> Answer
    ensures told { told_in (line result) memory.new ≡ assemble_told lent s.now ends.now fields.now memory.old.bytes.now memory.old.ends.now memory.old.numbers.now }
    ensures same { SameMemory memory.old memory.new }
{
    let mut numbers = [0u64; NUMBERS];
    let numbers = &mut numbers[..WIDTH * (ends.len() / 2).min(SEGMENTS)];
    put_segments(ends, fields, numbers);
    let segments = Segments {
        picture: s,
        numbers,
    };
    assemble_lent(settings_of(fields), lent, segments, memory)
}
