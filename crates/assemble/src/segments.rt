// Assembly from a lent list of range records (document 01): each is copied into the flat numbers that the core takes.
ghost use Rattle.std.specs.Prelude.{◌≡◌, ◌≤◌, length};
ghost use Rattle.bitio.specs.Lent.{pasted};
ghost use Rattle.blocks.specs.Numbers.{segment_count};
ghost use Rattle.assemble.specs.Whole.{lent_of, SameBuffers, Handed};
ghost use Rattle.assemble.specs.Records.{numbers_of, numbers_after, records_outcome};

use crate::multi::{Buffers, Counts, assemble_multi};
use bitio::limits::check_limit;
use bitio::refusal::Refusal;
use blocks::numbers::{Segment, Segments, WIDTH, put_record};
use pictures::fault::Fault;
use pictures::settings::Settings;

// The record of each segment, one after the other, where their room is known.
fn put_records(segments: &[Segment], numbers: &mut [u64])
    requires { length segments.now ≤ segment_count numbers.old }
    ensures { numbers.new ≡ pasted numbers.old 0 (numbers_of segments.now) }
{
    for (i, segment) in segments.iter().enumerate() {
        put_record(numbers, i, *segment);
    }
}

// Assembly from segments. The lent numbers are working memory, of which document 01 says nothing: a record a segment,
// put at their head. Where there is no room for them the answer is 35, behind 34 alone: no segment can be read without.
pub fn assemble_segments(
    picture: &[u8],
    segments: &[Segment],
    numbers: &mut [u64],
    settings: Settings,
    buffers: &mut Buffers<'_, '_, '_, '_, '_, '_>,
) -> Result<Counts, Fault>
    ensures handed { Handed (records_outcome picture.now segments.now numbers.old settings) result (record {
      entry = lent_of buffers.old;
      exit = lent_of buffers.new;
    }) }
    ensures same { SameBuffers buffers.old buffers.new }
    ensures numbers { numbers.new ≡ numbers_after segments.now numbers.old }
{
    if segments.len() > numbers.len() / WIDTH {
        check_limit(picture)?;
        return Err(Fault::overall(Refusal::NoRoom));
    }
    put_records(segments, &mut *numbers);
    let numbers = &numbers[..WIDTH * segments.len()];
    assemble_multi(Segments { picture, numbers }, settings, buffers)
}
