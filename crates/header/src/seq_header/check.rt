// Which sequence headers a list of units can have.
ghost use Rattle.std.specs.Prelude.{◌≡◌};
ghost use Rattle.bitio.specs.Parse.{answer};
ghost use Rattle.bitio.specs.Refusal.{says};
ghost use Rattle.header.specs.Sequence.{in_array};
ghost use Rattle.header.specs.Support.{support, supported_sequence};

use crate::seq_header::read::read_sequence;
use crate::seq_header::{SequenceHeader, SequenceObu};
use bitio::refusal::Refusal;

// A list of units shows frames again, for which some headers ask fields that it does not write.
#[tactic(auto, unfolding(crate::specs::Support::support))]
pub fn check_supported(h: SequenceHeader) -> Result<(), Refusal>
    ensures { says result ≡ support h }
{
    if h.opening.reduced_still_picture_header {
        return Err(Refusal::ReducedStillPicture);
    }
    if h.coding.ids.frame_id_numbers_present {
        return Err(Refusal::FrameIdsOn);
    }
    if h.opening.model.decoder_model_info_present && !h.opening.timing.equal_picture_interval {
        return Err(Refusal::UnequalIntervals);
    }
    if h.coding.film_grain_params_present {
        return Err(Refusal::FilmGrainOn);
    }
    Ok(())
}

// A payload's header, if a list of units can have it. For crates that read the payloads of a unit within the limit.
#[tactic(auto, unfolding(crate::specs::Support::supported_sequence, bitio::specs::Parse::and_next))]
pub fn read_supported(payload: &[u8]) -> Result<SequenceObu, Refusal>
    ensures { says result ≡ answer in_array (supported_sequence payload.now) }
{
    let sequence = read_sequence(payload)?;
    check_supported(sequence.header)?;
    Ok(sequence)
}
