// Reading color_config of a sequence header (AV1 5.5.2).
ghost use Rattle.std.specs.Prelude.{◌≡◌};
ghost use Rattle.bitio.specs.Read.{reading};
ghost use Rattle.header.specs.SequenceRules.{ours};
ghost use Rattle.header.specs.SequenceCoding.{color_description, color_sampling};

use crate::seq_header::{ColorDescription, ColorSampling};
use bitio::reader::{BitReader, Read};

#[tactic(auto, unfolding(crate::specs::SequenceCoding::color_description))]
pub(crate) fn read_color(r: BitReader, s: &[u8], profile: u64) -> Read<ColorDescription>
    ensures { reading result ≡ color_description s.now r.pos profile }
{
    let (high_bitdepth, r) = r.flag(s)?;
    let (twelve_bit, r) = r.flag_or(s, profile == 2 && high_bitdepth, false)?;
    let (mono_chrome, r) = r.flag_or(s, profile != 1, false)?;
    let (color_description_present, r) = r.flag(s)?;
    let (color_primaries, r) = r.f_or(s, color_description_present, 8, 2)?;
    let (transfer_characteristics, r) = r.f_or(s, color_description_present, 8, 2)?;
    let (matrix_coefficients, r) = r.f_or(s, color_description_present, 8, 2)?;
    let color = ColorDescription {
        high_bitdepth,
        twelve_bit,
        mono_chrome,
        color_description_present,
        color_primaries,
        transfer_characteristics,
        matrix_coefficients,
    };
    Ok((color, r))
}

// separate_uv_delta_q is read of a monochrome header too.
#[tactic(auto, unfolding(crate::specs::SequenceCoding::color_sampling, bitio::specs::Fields::flag_or))]
pub(crate) fn read_sampling(
    r: BitReader,
    s: &[u8],
    profile: u64,
    c: ColorDescription,
) -> Read<ColorSampling>
    ensures { reading result ≡ color_sampling ours s.now r.pos profile c }
{
    let sampled = c.is_sampled();
    let coded = c.is_sampling_coded(profile);
    let (color_range, r) = r.flag_or(s, c.is_range_coded(), true)?;
    let (subsample_x, r) = r.flag_or(s, coded, sampled && profile != 1)?;
    let (subsample_y, r) = r.flag_or(s, coded && subsample_x, sampled && profile == 0)?;
    let (chroma_sample_position, r) = r.f_or(s, sampled && subsample_x && subsample_y, 2, 0)?;
    let (separate_uv_delta_q, r) = r.flag(s)?;
    let sampling = ColorSampling {
        color_range,
        subsample_x,
        subsample_y,
        chroma_sample_position,
        separate_uv_delta_q,
    };
    Ok((sampling, r))
}
