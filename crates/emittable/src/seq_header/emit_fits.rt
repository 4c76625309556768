// Whether some payload reads as the fields of a sequence header.
ghost use Rattle.std.specs.Prelude.{◌≡◌};
ghost use Rattle.emittable.specs.PutFields.{fits, fits_or, flag_fits_or, uvlc_fits_or};
ghost use Rattle.header.specs.Sequence.{sequence_in};
ghost use Rattle.emittable.specs.Emittable.{timing_fits, model_fits, opening_fits, point_fits, points_fit, emittable};

use crate::seq_header::emit_fits_coding::coding_fits;
use header::seq_header::bounded::BoundedOpening;
use header::seq_header::{DecoderModelInfo, Opening, OperatingPoint, SequenceObu, TimingInfo};

// f(n)
#[tactic(auto, using(crate::proofs::EmitSteps::fits_code, crate::proofs::EmitSteps::fits_wide))]
pub(crate) fn bits_fit(n: usize, v: u64) -> bool
    ensures { result ≡ fits n v }
{
    n >= 64 || v < (1u64 << n)
}

// f(n) where on, else the value that it counts as
#[tactic(auto, unfolding(crate::specs::PutFields::fits_or))]
pub(crate) fn bits_fit_or(on: bool, n: usize, other: u64, v: u64) -> bool
    ensures { result ≡ fits_or on n other v }
{
    if on { bits_fit(n, v) } else { v == other }
}

// any flag where on, else the one that it counts as
#[tactic(auto, unfolding(crate::specs::PutFields::flag_fits_or))]
pub(crate) fn flag_fits_or(on: bool, other: bool, v: bool) -> bool
    ensures { result ≡ flag_fits_or on other v }
{
    on || v == other
}

// a uvlc of fewer than 32 zeros where on, else 0
#[tactic(auto, unfolding(crate::specs::PutFields::uvlc_fits_or))]
fn uvlc_fits_or(on: bool, v: u64) -> bool
    ensures { result ≡ uvlc_fits_or on v }
{
    if on { v < 0xffff_ffff } else { v == 0 }
}

#[tactic(auto, unfolding(crate::specs::Emittable::timing_fits))]
fn timing_fits(full: bool, t: TimingInfo) -> bool
    ensures { result ≡ timing_fits full t }
{
    flag_fits_or(full, false, t.timing_info_present)
        && bits_fit_or(t.timing_info_present, 32, 0, t.num_units_in_display_tick)
        && bits_fit_or(t.timing_info_present, 32, 0, t.time_scale)
        && flag_fits_or(t.timing_info_present, false, t.equal_picture_interval)
        && uvlc_fits_or(t.equal_picture_interval, t.num_ticks_per_picture_minus_1)
}

#[tactic(auto, unfolding(crate::specs::Emittable::model_fits))]
fn model_fits(timed: bool, m: DecoderModelInfo) -> bool
    ensures { result ≡ model_fits timed m }
{
    let present = m.decoder_model_info_present;
    flag_fits_or(timed, false, present)
        && bits_fit_or(present, 5, 0, m.buffer_delay_length_minus_1)
        && bits_fit_or(present, 32, 0, m.num_units_in_decoding_tick)
        && bits_fit_or(present, 5, 0, m.buffer_removal_time_length_minus_1)
        && bits_fit_or(present, 5, 0, m.frame_presentation_time_length_minus_1)
}

#[tactic(auto, unfolding(crate::specs::Emittable::opening_fits))]
fn opening_fits(o: Opening) -> bool
    ensures { result ≡ opening_fits o }
{
    let full = !o.reduced_still_picture_header;
    o.seq_profile <= 2
        && timing_fits(full, o.timing)
        && model_fits(o.timing.timing_info_present, o.model)
        && flag_fits_or(full, false, o.initial_display_delay_present)
        && bits_fit_or(full, 5, 0, o.operating_points_cnt_minus_1)
}

#[tactic(auto, unfolding(crate::specs::Emittable::point_fits))]
fn point_fits(bounded: BoundedOpening, x: OperatingPoint) -> bool
    ensures { result ≡ point_fits bounded.opening x }
{
    let o = bounded.opening;
    let full = !o.reduced_still_picture_header;
    let model = x.decoder_model_present;
    let delay = x.initial_display_delay_present;
    let n = bounded.delay_bits();
    bits_fit_or(full, 12, 0, x.idc)
        && bits_fit(5, x.seq_level_idx)
        && flag_fits_or(full && x.seq_level_idx > 7, false, x.seq_tier)
        && flag_fits_or(o.model.decoder_model_info_present, false, model)
        && bits_fit_or(model, n, 0, x.decoder_buffer_delay)
        && bits_fit_or(model, n, 0, x.encoder_buffer_delay)
        && flag_fits_or(model, false, x.low_delay_mode)
        && flag_fits_or(o.initial_display_delay_present, false, delay)
        && bits_fit_or(delay, 4, 0, x.initial_display_delay_minus_1)
}

fn points_fit(bounded: BoundedOpening, points: &[OperatingPoint]) -> bool
    ensures { result ≡ points_fit bounded.opening points.now }
{
    points.iter().all(|x| point_fits(bounded, *x))
}

// Some payload reads as these fields.
#[tactic(auto, using(crate::proofs::BackSequence::opening_delay, crate::proofs::BackSequence::opening_count), unfolding(crate::specs::Emittable::emittable))]
pub fn is_emittable(sequence: &SequenceObu) -> bool
    ensures { result ≡ emittable (sequence_in sequence.now) }
{
    let o = sequence.header.opening;
    let full = !o.reduced_still_picture_header;
    if !opening_fits(o) {
        return false;
    }
    let bounded = BoundedOpening { opening: o };
    points_fit(bounded, sequence.points())
        && coding_fits(o.seq_profile, full, sequence.header.coding)
}
