// Assembly by way of the entry on segment structs, for comparisons: flat numbers are put into a local array of structs,
// whose front is lent.
ghost use Rattle.std.specs.Prelude.{◌≡◌, ◌≤◌};
ghost use Rattle.blocks.specs.Numbers.{segment_count};
ghost use Rattle.assemble.specs.Whole.{lent_of, SameBuffers};
ghost use Rattle.bench.specs.Boards.{boards_in, boards_outcome, Told};

use assemble::multi::{Buffers, code_of};
use assemble::segments::assemble_segments;
use blocks::numbers::{Segment, WIDTH, is_whole, segment_count, segment_of};
use pictures::settings::Settings;

// As many boards as the array has.
const BOARDS: usize = 64;

const NUMBERS: usize = WIDTH * BOARDS;

// No refusal of document 01: the numbers are no whole records, or of more segments than the array has.
const UNFIT: u64 = 0xffff_ffff;

// The segments of all records, and empty ones behind them.
fn boards_of(segments: &[u64]) -> [Segment; BOARDS]
    requires { segment_count segments.now ≤ 64 }
    ensures { result ≡ boards_in segments.now }
{
    let mut boards = [Segment::default(); BOARDS];
    for i in 0..segment_count(segments) {
        boards[i] = segment_of(segments, i);
    }
    boards
}

// Assembly from flat numbers, by way of structs: 0, or why not.
pub fn assemble_numbers(
    picture: &[u8],
    segments: &[u64],
    settings: Settings,
    buffers: &mut Buffers<'_, '_, '_, '_, '_, '_>,
) -> u64
    ensures told { Told (boards_outcome picture.now segments.now settings) result (record {
      entry = lent_of buffers.old;
      exit = lent_of buffers.new;
    }) }
    ensures same { SameBuffers buffers.old buffers.new }
{
    let count = segment_count(segments);
    if count > BOARDS || !is_whole(segments) {
        return UNFIT;
    }
    let boards = boards_of(segments);
    let mut numbers = [0u64; NUMBERS];
    match assemble_segments(picture, &boards[..count], &mut numbers, settings, buffers) {
        Err(fault) => code_of(fault),
        Ok(_) => 0,
    }
}
