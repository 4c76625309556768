// The frames ordered and the ranges of the segments, judged over their flat numbers.
ghost use Rattle.std.specs.Prelude.{◌≡◌, ◌==◌};
ghost use Rattle.std.specs.List.{find, list_all, range_with_len};
ghost use Rattle.bitio.specs.Limits.{capped};
ghost use Rattle.bitio.specs.Refusal.{says};
ghost use Rattle.blocks.specs.Blocks.{total};
ghost use Rattle.blocks.specs.Numbers.{frames_in, frames_at, segment_count, head_inside, record_at};
ghost use Rattle.pictures.specs.Assemble.{verdict};
ghost use Rattle.pictures.specs.Says.{outcome_of};
ghost use Rattle.pictures.specs.Segments.{segments_of};
ghost use Rattle.pictures.specs.Sizes.{sized_all};

use crate::fault::Fault;
use bitio::refusal::Refusal;
use blocks::numbers::{Segments, frames_of, is_whole, segment_count};

// The frames ordered, saturating.
pub fn total_frames(segments: &[u64]) -> u64
    ensures { result ≡ capped (total (frames_in segments.now)) }
{
    let mut sum: u64 = 0;
    for i in 0..segment_count(segments) {
        sum = sum.saturating_add(frames_of(segments, i));
    }
    sum
}

// The first segment without frames.
fn first_empty(segments: &[u64]) -> Option<usize>
    ensures { result ≡ find (λ i. frames_at segments.now i == 0) (range_with_len 0 (segment_count segments.now)) }
{
    (0..segment_count(segments)).find(|i| frames_of(segments, *i) == 0)
}

// Refusals 21 to 25, in this order.
pub fn check_sizes(gop: u64, segments: &[u64]) -> Result<(), Fault>
    ensures { outcome_of result ≡ sized_all gop (frames_in segments.now) }
{
    if segment_count(segments) == 0 {
        return Err(Fault::overall(Refusal::NoBoards));
    }
    if gop < 2 {
        return Err(Fault::overall(Refusal::GopTooSmall));
    }
    let total = total_frames(segments);
    if total < 2 {
        return Err(Fault::overall(Refusal::TooFewFrames));
    }
    if let Some(empty) = first_empty(segments) {
        return Err(Fault::in_segment(Refusal::BoardWithoutFrames, empty));
    }
    if total > 5000000 {
        return Err(Fault::overall(Refusal::TooManyFrames));
    }
    Ok(())
}

// Whether the ranges of all segments lie within the picture bytes.
fn all_within(segments: Segments) -> bool
    ensures { result ≡ list_all (λ i. head_inside segments.entry.picture.now (record_at segments.entry.numbers.now i)) (range_with_len 0 (segment_count segments.entry.numbers.now)) }
{
    (0..segment_count(segments.numbers)).all(|i| segments.is_within(i))
}

// 36: numbers that are no whole record, or a range not within the picture bytes.
pub fn check_ranges(segments: Segments) -> Result<(), Refusal>
    ensures { says result ≡ verdict (segments_of segments.entry.picture.now segments.entry.numbers.now) }
{
    if is_whole(segments.numbers) && all_within(segments) {
        Ok(())
    } else {
        Err(Refusal::NotAList)
    }
}
