// Reading a sequence header's payload (AV1 5.5).
ghost use Rattle.std.specs.Prelude.{◌≡◌};
ghost use Rattle.bitio.specs.Limits.{limited};
ghost use Rattle.bitio.specs.Parse.{answer};
ghost use Rattle.bitio.specs.Refusal.{says};
ghost use Rattle.header.specs.Sequence.{parse_sequence, in_array};

use crate::seq_header::bounded::BoundedOpening;
use crate::seq_header::read_coding::read_coding;
use crate::seq_header::read_opening::read_opening;
use crate::seq_header::read_points::read_points;
use crate::seq_header::{SequenceHeader, SequenceObu};
use bitio::limits::check_limit;
use bitio::reader::BitReader;
use bitio::refusal::Refusal;

// The fields of a payload; bytes behind the last field are not looked at. For crates that read the payloads of a unit
// within the limit.
#[tactic(auto, unfolding(crate::specs::Sequence::parse_sequence, crate::specs::Sequence::sequence_header))]
pub fn read_sequence(payload: &[u8]) -> Result<SequenceObu, Refusal>
    ensures { says result ≡ answer in_array (parse_sequence payload.now) }
{
    let (opening, r) = read_opening(BitReader { pos: 0 }, payload)?;
    let bounded = BoundedOpening { opening };
    let (operating_points, r) = read_points(r, payload, bounded)?;
    let full = !opening.reduced_still_picture_header;
    let (coding, _) = read_coding(r, payload, opening.seq_profile, full)?;
    Ok(SequenceObu {
        header: SequenceHeader { opening, coding },
        operating_points,
    })
}

// The fields of any bytes; 34 leads.
#[tactic(auto, unfolding(bitio::specs::Limits::limited))]
pub fn parse_sequence_header(payload: &[u8]) -> Result<SequenceObu, Refusal>
    ensures { says result ≡ answer in_array (limited payload.now (parse_sequence payload.now)) }
{
    check_limit(payload)?;
    read_sequence(payload)
}
