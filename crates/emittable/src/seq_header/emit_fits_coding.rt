// Whether some bits read as the fields behind the operating points.
ghost use Rattle.std.specs.Prelude.{◌≡◌};
ghost use Rattle.emittable.specs.Emittable.{size_fits, ids_fit, tools_fit, screen_fits, color_fits, sampling_fits, coding_fits};

use crate::seq_header::emit_fits::{bits_fit, bits_fit_or, flag_fits_or};
use header::seq_header::{
    Coding, ColorDescription, ColorSampling, FrameIds, FrameSize, ScreenTools, Tools,
};

#[tactic(auto, unfolding(crate::specs::Emittable::size_fits, crate::specs::PutFields::fits))]
fn size_fits(z: FrameSize) -> bool
    ensures { result ≡ size_fits z }
{
    bits_fit(4, z.frame_width_bits_minus_1)
        && bits_fit(4, z.frame_height_bits_minus_1)
        && bits_fit(
            z.frame_width_bits_minus_1 as usize + 1,
            z.max_frame_width_minus_1,
        )
        && bits_fit(
            z.frame_height_bits_minus_1 as usize + 1,
            z.max_frame_height_minus_1,
        )
}

#[tactic(auto, unfolding(crate::specs::Emittable::ids_fit))]
fn ids_fit(full: bool, i: FrameIds) -> bool
    ensures { result ≡ ids_fit full i }
{
    let present = i.frame_id_numbers_present;
    flag_fits_or(full, false, present)
        && bits_fit_or(present, 4, 0, i.delta_frame_id_length_minus_2)
        && bits_fit_or(present, 3, 0, i.additional_frame_id_length_minus_1)
}

#[tactic(auto, unfolding(crate::specs::Emittable::tools_fit))]
fn tools_fit(full: bool, t: Tools) -> bool
    ensures { result ≡ tools_fit full t }
{
    flag_fits_or(full, false, t.enable_interintra_compound)
        && flag_fits_or(full, false, t.enable_masked_compound)
        && flag_fits_or(full, false, t.enable_warped_motion)
        && flag_fits_or(full, false, t.enable_dual_filter)
        && flag_fits_or(full, false, t.enable_order_hint)
        && flag_fits_or(t.enable_order_hint, false, t.enable_jnt_comp)
        && flag_fits_or(t.enable_order_hint, false, t.enable_ref_frame_mvs)
}

#[tactic(auto, unfolding(crate::specs::Emittable::screen_fits))]
fn screen_fits(full: bool, hint: bool, t: ScreenTools) -> bool
    ensures { result ≡ screen_fits full hint t }
{
    let forced = full & !t.seq_choose_screen_content_tools;
    let tools = full & (t.seq_force_screen_content_tools > 0);
    let forced_mv = tools & !t.seq_choose_integer_mv;
    flag_fits_or(full, false, t.seq_choose_screen_content_tools)
        && bits_fit_or(forced, 1, 2, t.seq_force_screen_content_tools)
        && flag_fits_or(tools, false, t.seq_choose_integer_mv)
        && bits_fit_or(forced_mv, 1, 2, t.seq_force_integer_mv)
        && bits_fit_or(hint, 3, 0, t.order_hint_bits_minus_1)
}

#[tactic(auto, unfolding(crate::specs::Emittable::color_fits))]
fn color_fits(profile: u64, c: ColorDescription) -> bool
    ensures { result ≡ color_fits profile c }
{
    let present = c.color_description_present;
    flag_fits_or((profile == 2) & c.high_bitdepth, false, c.twelve_bit)
        && flag_fits_or(profile != 1, false, c.mono_chrome)
        && bits_fit_or(present, 8, 2, c.color_primaries)
        && bits_fit_or(present, 8, 2, c.transfer_characteristics)
        && bits_fit_or(present, 8, 2, c.matrix_coefficients)
}

#[tactic(auto, unfolding(crate::specs::Emittable::sampling_fits))]
fn sampling_fits(profile: u64, c: ColorDescription, m: ColorSampling) -> bool
    ensures { result ≡ sampling_fits profile c m }
{
    let sampled = c.is_sampled();
    let coded = c.is_sampling_coded(profile);
    let coded_y = coded && m.subsample_x;
    let positioned = sampled && m.subsample_x && m.subsample_y;
    flag_fits_or(c.is_range_coded(), true, m.color_range)
        && flag_fits_or(coded, sampled && profile != 1, m.subsample_x)
        && flag_fits_or(coded_y, sampled && profile == 0, m.subsample_y)
        && bits_fit_or(positioned, 2, 0, m.chroma_sample_position)
}

#[tactic(auto, unfolding(crate::specs::Emittable::coding_fits))]
pub(crate) fn coding_fits(profile: u64, full: bool, c: Coding) -> bool
    ensures { result ≡ coding_fits profile full c }
{
    size_fits(c.size)
        && ids_fit(full, c.ids)
        && tools_fit(full, c.tools)
        && screen_fits(full, c.tools.enable_order_hint, c.screen)
        && color_fits(profile, c.color)
        && sampling_fits(profile, c.color, c.sampling)
}
