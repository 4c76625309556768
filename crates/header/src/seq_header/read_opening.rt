// Reading a sequence header (AV1 5.5.1) up to the operating points.
ghost use Rattle.std.specs.Prelude.{◌≡◌};
ghost use Rattle.bitio.specs.Read.{reading};
ghost use Rattle.header.specs.SequenceRules.{ours};
ghost use Rattle.header.specs.SequenceOpening.{timing_info, decoder_model_info, opening};

use crate::seq_header::{DecoderModelInfo, Opening, TimingInfo};
use bitio::reader::{BitReader, Read};
use bitio::refusal::Refusal;

// full: the header is not reduced.
#[tactic(auto, unfolding(crate::specs::SequenceOpening::timing_info))]
fn read_timing(r: BitReader, s: &[u8], full: bool) -> Read<TimingInfo>
    ensures { reading result ≡ timing_info ours s.now r.pos full }
{
    let (timing_info_present, r) = r.flag_or(s, full, false)?;
    let (num_units_in_display_tick, r) = r.f_or(s, timing_info_present, 32, 0)?;
    let (time_scale, r) = r.f_or(s, timing_info_present, 32, 0)?;
    let (equal_picture_interval, r) = r.flag_or(s, timing_info_present, false)?;
    let (num_ticks_per_picture_minus_1, r) = r.uvlc_or(s, equal_picture_interval)?;
    let timing = TimingInfo {
        timing_info_present,
        num_units_in_display_tick,
        time_scale,
        equal_picture_interval,
        num_ticks_per_picture_minus_1,
    };
    Ok((timing, r))
}

// timed: timing info is there.
#[tactic(auto, unfolding(crate::specs::SequenceOpening::decoder_model_info))]
fn read_model(r: BitReader, s: &[u8], timed: bool) -> Read<DecoderModelInfo>
    ensures { reading result ≡ decoder_model_info s.now r.pos timed }
{
    let (decoder_model_info_present, r) = r.flag_or(s, timed, false)?;
    let (buffer_delay_length_minus_1, r) = r.f_or(s, decoder_model_info_present, 5, 0)?;
    let (num_units_in_decoding_tick, r) = r.f_or(s, decoder_model_info_present, 32, 0)?;
    let (buffer_removal_time_length_minus_1, r) = r.f_or(s, decoder_model_info_present, 5, 0)?;
    let (frame_presentation_time_length_minus_1, r) = r.f_or(s, decoder_model_info_present, 5, 0)?;
    let model = DecoderModelInfo {
        decoder_model_info_present,
        buffer_delay_length_minus_1,
        num_units_in_decoding_tick,
        buffer_removal_time_length_minus_1,
        frame_presentation_time_length_minus_1,
    };
    Ok((model, r))
}

#[tactic(auto, unfolding(crate::specs::SequenceOpening::opening))]
pub(crate) fn read_opening(r: BitReader, s: &[u8]) -> Read<Opening>
    ensures { reading result ≡ opening ours s.now r.pos }
{
    let (seq_profile, r) = r.f(s, 3)?;
    let (still_picture, r) = r.flag(s)?;
    let (reduced_still_picture_header, r) = r.flag(s)?;
    if seq_profile > 2 {
        return Err(Refusal::UnknownProfile);
    }
    let full = !reduced_still_picture_header;
    let (timing, r) = read_timing(r, s, full)?;
    let (model, r) = read_model(r, s, timing.timing_info_present)?;
    let (initial_display_delay_present, r) = r.flag_or(s, full, false)?;
    let (operating_points_cnt_minus_1, r) = r.f_or(s, full, 5, 0)?;
    let opening = Opening {
        seq_profile,
        still_picture,
        reduced_still_picture_header,
        timing,
        model,
        initial_display_delay_present,
        operating_points_cnt_minus_1,
    };
    Ok((opening, r))
}
