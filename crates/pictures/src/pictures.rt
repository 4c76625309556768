// The picture bytes by segment, key and golden, with the end of each unit, and the show bytes: measured, then written.
ghost use Rattle.std.specs.Prelude.{◌≡◌, ◌+◌, ◌*◌, ◌≤◌, ◌<◌, length};
ghost use mathlib.Core.List.{[], ◌∷◌, ◌++◌, flat_map};
ghost use Rattle.bitio.specs.Limits.{limit};
ghost use Rattle.bitio.specs.Lent.{pasted};
ghost use Rattle.bitio.specs.Refusal.{says};
ghost use Rattle.header.specs.Sequence.{sequence_in};
ghost use Rattle.pictures.specs.Prepare.{show_unit};
ghost use Rattle.pictures.specs.Assemble.{picture_of, ends_from};
ghost use Rattle.pictures.specs.Flat.{all_segments, judged, answer_or, lent, sent_bytes, all_sent, slots_of, measured, measured_units};
ghost use Rattle.pictures.specs.Says.{outcome_of};

use crate::fault::{Fault, in_segment};
use crate::frames::golden_slot;
use crate::rewrite::{put_sent, sent_len};
use bitio::refusal::Refusal;
use blocks::numbers::{Segments, segment_count};
use header::seq_header::SequenceObu;

// How many picture bytes the units of a segment have as they go out, or its first refusal.
fn measure_units(
    key: &[u8],
    golden: &[u8],
    sequence: &SequenceObu,
    renewal: Option<&[u8]>,
) -> Result<usize, Refusal>
    ensures { says result ≡ measured_units (sequence_in sequence.now) (lent renewal.entry) key.now golden.now }
{
    golden_slot(key, golden, sequence, renewal.is_some())?;
    let keys = sent_len(key, renewal);
    let goldens = sent_len(golden, renewal);
    Ok(keys.saturating_add(goldens))
}

// How many picture bytes the segments have as they go out, as far as a usize counts them, or their first refusal.
pub fn measure_pictures(
    segments: Segments,
    sequence: &SequenceObu,
    renewal: Option<&[u8]>,
) -> Result<usize, Fault>
    ensures { outcome_of result ≡ measured (sequence_in sequence.now) (lent renewal.entry) (all_segments segments.entry.picture.now segments.entry.numbers.now) }
{
    let mut sum: usize = 0;
    for i in 0..segment_count(segments.numbers) {
        let key = segments.key(i);
        let golden = segments.golden(i);
        let n = in_segment(measure_units(key, golden, sequence, renewal), i)?;
        sum = sum.saturating_add(n);
    }
    Ok(sum)
}

// Writes the units of segment i as they go out, and where they end; returns the place behind them.
fn put_units(
    pictures: &mut [u8],
    ends: &mut [u32],
    at: usize,
    i: usize,
    key: &[u8],
    golden: &[u8],
    renewal: Option<&[u8]>,
) -> usize
    requires small { at + length (sent_bytes (lent renewal) key.now ++ sent_bytes (lent renewal) golden.now) ≤ limit }
    requires pictures { at + length (sent_bytes (lent renewal) key.now ++ sent_bytes (lent renewal) golden.now) ≤ length pictures.old }
    requires ends { 2 * i + 2 ≤ length ends.old }
    ensures next { result ≡ at + length (sent_bytes (lent renewal.entry) key.now) + length (sent_bytes (lent renewal.entry) golden.now) }
    ensures pictures { pictures.new ≡ pasted pictures.old at (sent_bytes (lent renewal.entry) key.now ++ sent_bytes (lent renewal.entry) golden.now) }
    ensures ends { ends.new ≡ pasted ends.old (2 * i) ((at + length (sent_bytes (lent renewal.entry) key.now)) ∷ result ∷ []) }
{
    let middle = put_sent(pictures, at, key, renewal);
    let end = put_sent(pictures, middle, golden, renewal);
    ends[2 * i] = middle as u32;
    ends[2 * i + 1] = end as u32;
    end
}

// Writes the picture bytes and the end of each unit, where their room is known.
pub fn put_pictures(
    pictures: &mut [u8],
    ends: &mut [u32],
    segments: Segments,
    renewal: Option<&[u8]>,
)
    requires small { length (picture_of (all_sent (lent renewal) (all_segments segments.picture.now segments.numbers.now))) ≤ limit }
    requires pictures { length (picture_of (all_sent (lent renewal) (all_segments segments.picture.now segments.numbers.now))) ≤ length pictures.old }
    requires ends { 2 * length (all_segments segments.picture.now segments.numbers.now) ≤ length ends.old }
    ensures pictures { pictures.new ≡ pasted pictures.old 0 (picture_of (all_sent (lent renewal.entry) (all_segments segments.entry.picture.now segments.entry.numbers.now))) }
    ensures ends { ends.new ≡ pasted ends.old 0 (ends_from 0 (all_sent (lent renewal.entry) (all_segments segments.entry.picture.now segments.entry.numbers.now))) }
{
    let mut at: usize = 0;
    for i in 0..segment_count(segments.numbers) {
        let key = segments.key(i);
        let golden = segments.golden(i);
        at = put_units(pictures, ends, at, i, key, golden, renewal);
    }
}

// The slot that the show units of a segment name; 0 for a segment that is refused.
pub fn slot_or_zero(key: &[u8], golden: &[u8], sequence: &SequenceObu, rewriting: bool) -> u8
    ensures { result ≡ answer_or 0 (judged (sequence_in sequence.now) rewriting key.now golden.now) }
{
    golden_slot(key, golden, sequence, rewriting).unwrap_or(0)
}

// Writes one show unit.
fn put_show(shows: &mut [u8], at: usize, slot: u8)
    requires room { at + 5 ≤ length shows.old }
    requires slot { slot < 8 }
    ensures { shows.new ≡ pasted shows.old at (show_unit slot) }
{
    let unit = [0x12, 0x00, 0x1A, 0x01, 128 + 16 * slot + 8];
    shows[at..at + 5].copy_from_slice(&unit);
}

// Writes the show bytes, five a segment, where their room is known.
pub fn put_shows(shows: &mut [u8], segments: Segments, sequence: &SequenceObu, rewriting: bool)
    requires { 5 * length (all_segments segments.picture.now segments.numbers.now) ≤ length shows.old }
    ensures { shows.new ≡ pasted shows.old 0 (flat_map show_unit (slots_of (sequence_in sequence.now) rewriting (all_segments segments.entry.picture.now segments.entry.numbers.now))) }
{
    for i in 0..segment_count(segments.numbers) {
        let slot = slot_or_zero(segments.key(i), segments.golden(i), sequence, rewriting);
        put_show(shows, 5 * i, slot);
    }
}
