// Reading the frame size, frame ids and coding tools of a sequence header (AV1 5.5.1).
ghost use Rattle.std.specs.Prelude.{◌≡◌};
ghost use Rattle.bitio.specs.Read.{reading};
ghost use Rattle.header.specs.SequenceCoding.{frame_size, frame_ids, coding_tools, screen_tools, filters};

use crate::seq_header::{Filters, FrameIds, FrameSize, ScreenTools, Tools};
use bitio::reader::{BitReader, Read};

#[tactic(auto, unfolding(crate::specs::SequenceCoding::frame_size))]
pub(crate) fn read_size(r: BitReader, s: &[u8]) -> Read<FrameSize>
    ensures { reading result ≡ frame_size s.now r.pos }
{
    let (frame_width_bits_minus_1, r) = r.f(s, 4)?;
    let (frame_height_bits_minus_1, r) = r.f(s, 4)?;
    let (max_frame_width_minus_1, r) = r.f(s, frame_width_bits_minus_1 as usize + 1)?;
    let (max_frame_height_minus_1, r) = r.f(s, frame_height_bits_minus_1 as usize + 1)?;
    let size = FrameSize {
        frame_width_bits_minus_1,
        frame_height_bits_minus_1,
        max_frame_width_minus_1,
        max_frame_height_minus_1,
    };
    Ok((size, r))
}

#[tactic(auto, unfolding(crate::specs::SequenceCoding::frame_ids))]
pub(crate) fn read_ids(r: BitReader, s: &[u8], full: bool) -> Read<FrameIds>
    ensures { reading result ≡ frame_ids s.now r.pos full }
{
    let (frame_id_numbers_present, r) = r.flag_or(s, full, false)?;
    let (delta_frame_id_length_minus_2, r) = r.f_or(s, frame_id_numbers_present, 4, 0)?;
    let (additional_frame_id_length_minus_1, r) = r.f_or(s, frame_id_numbers_present, 3, 0)?;
    let ids = FrameIds {
        frame_id_numbers_present,
        delta_frame_id_length_minus_2,
        additional_frame_id_length_minus_1,
    };
    Ok((ids, r))
}

#[tactic(auto, unfolding(crate::specs::SequenceCoding::coding_tools))]
pub(crate) fn read_tools(r: BitReader, s: &[u8], full: bool) -> Read<Tools>
    ensures { reading result ≡ coding_tools s.now r.pos full }
{
    let (use_128x128_superblock, r) = r.flag(s)?;
    let (enable_filter_intra, r) = r.flag(s)?;
    let (enable_intra_edge_filter, r) = r.flag(s)?;
    let (enable_interintra_compound, r) = r.flag_or(s, full, false)?;
    let (enable_masked_compound, r) = r.flag_or(s, full, false)?;
    let (enable_warped_motion, r) = r.flag_or(s, full, false)?;
    let (enable_dual_filter, r) = r.flag_or(s, full, false)?;
    let (enable_order_hint, r) = r.flag_or(s, full, false)?;
    let (enable_jnt_comp, r) = r.flag_or(s, enable_order_hint, false)?;
    let (enable_ref_frame_mvs, r) = r.flag_or(s, enable_order_hint, false)?;
    let tools = Tools {
        use_128x128_superblock,
        enable_filter_intra,
        enable_intra_edge_filter,
        enable_interintra_compound,
        enable_masked_compound,
        enable_warped_motion,
        enable_dual_filter,
        enable_order_hint,
        enable_jnt_comp,
        enable_ref_frame_mvs,
    };
    Ok((tools, r))
}

#[tactic(auto, unfolding(crate::specs::SequenceCoding::screen_tools))]
pub(crate) fn read_screen(r: BitReader, s: &[u8], full: bool, hint: bool) -> Read<ScreenTools>
    ensures { reading result ≡ screen_tools s.now r.pos full hint }
{
    let (choose, r) = r.flag_or(s, full, false)?;
    let (tools, r) = r.f_or(s, full && !choose, 1, 2)?;
    let on = full && tools > 0;
    let (choose_mv, r) = r.flag_or(s, on, false)?;
    let (mv, r) = r.f_or(s, on && !choose_mv, 1, 2)?;
    let (order_hint_bits_minus_1, r) = r.f_or(s, hint, 3, 0)?;
    let screen = ScreenTools {
        seq_choose_screen_content_tools: choose,
        seq_force_screen_content_tools: tools,
        seq_choose_integer_mv: choose_mv,
        seq_force_integer_mv: mv,
        order_hint_bits_minus_1,
    };
    Ok((screen, r))
}

#[tactic(auto, unfolding(crate::specs::SequenceCoding::filters))]
pub(crate) fn read_filters(r: BitReader, s: &[u8]) -> Read<Filters>
    ensures { reading result ≡ filters s.now r.pos }
{
    let (enable_superres, r) = r.flag(s)?;
    let (enable_cdef, r) = r.flag(s)?;
    let (enable_restoration, r) = r.flag(s)?;
    let filters = Filters {
        enable_superres,
        enable_cdef,
        enable_restoration,
    };
    Ok((filters, r))
}
