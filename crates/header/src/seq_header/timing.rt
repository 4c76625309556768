// A sequence header with constant-rate timing.
ghost use Rattle.std.specs.Prelude.{◌≡◌};
ghost use Rattle.bitio.specs.Refusal.{says};
ghost use Rattle.header.specs.Timed.{rate, timed};

use crate::seq_header::{Opening, SequenceHeader, TimingInfo};
use bitio::refusal::Refusal;

// num frames in den seconds.
fn constant_rate(num: u32, den: u32) -> TimingInfo
    ensures { result ≡ rate num den }
{
    TimingInfo {
        timing_info_present: true,
        num_units_in_display_tick: den.max(1) as u64,
        time_scale: num.max(1) as u64,
        equal_picture_interval: true,
        num_ticks_per_picture_minus_1: 0,
    }
}

// h with this rate, whatever timing it had.
#[tactic(auto, unfolding(crate::specs::Timed::timed, crate::specs::Timed::with_timing, crate::specs::Timed::retimed))]
pub fn with_timing_info_rate(
    h: SequenceHeader,
    num: u32,
    den: u32,
) -> Result<SequenceHeader, Refusal>
    ensures { says result ≡ timed num den h }
{
    if h.opening.reduced_still_picture_header {
        return Err(Refusal::ReducedStillPicture);
    }
    let opening = Opening {
        timing: constant_rate(num, den),
        ..h.opening
    };
    Ok(SequenceHeader { opening, ..h })
}
