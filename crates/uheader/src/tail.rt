// The frame header behind tile_info (AV1 5.9.2).
ghost use Rattle.std.specs.Prelude.{◌≡◌, IfOk};
ghost use Rattle.bitio.specs.Read.{reading};
ghost use Rattle.syntax.specs.Syntax.{run};
ghost use Rattle.params.specs.Lossless.{sign_magnitude};
ghost use Rattle.params.specs.Quantization.{Ranged};
ghost use Rattle.uheader.specs.Tail as spec;

use crate::dpb;
use crate::shape::Shape;
use bitio::reader::{BitReader, Read};
use frame::frame_header::{FrameFront, PRIMARY_REF_NONE};
use geometry::slots::RefSlot;
use header::seq_header::Coding;
use params::quant::Quantizer;
use params::restoration::Restoration;
use params::skip::OrderHints;
use params::{cdef, deltas, filter, lossless, motion, quant, restoration, segments, skip};

// loop_filter_params, cdef_params, lr_params and tx_mode_select.
#[tactic(auto, unfolding(syntax::specs::Syntax::run, crate::specs::Tail::filter_params), using(frame::proofs::FlagLaws::flags, frame::proofs::FlagLaws::bit_if))]
fn filter_params(r: BitReader, s: &[u8], lossless: bool, coding: &Coding, z: Shape) -> Read<()>
    ensures { reading result ≡ run (spec.filter_params lossless coding.now z) s.now r.pos }
{
    let color = !coding.color.mono_chrome;
    let filtered = !z.allow_intrabc;
    let all_lossless = lossless && z.size.frame_width == z.size.upscaled_width;
    let (_, r) = filter::loop_filter_params(r, s, !lossless && filtered, color)?;
    let deringed = filtered && coding.filters.enable_cdef;
    let (_, r) = cdef::cdef_params(r, s, !lossless && deringed, color)?;
    let restoration = Restoration {
        on: !all_lossless && (filtered && coding.filters.enable_restoration),
        color,
        use_128x128_superblock: coding.tools.use_128x128_superblock,
        subsampled: coding.sampling.subsample_x && coding.sampling.subsample_y,
    };
    let (_, r) = restoration::lr_params(r, s, restoration)?;
    let (_select, r) = r.flag_or(s, !lossless, false)?;
    Ok(((), r))
}

// reference_select to global_motion_params.
#[tactic(auto, unfolding(syntax::specs::Syntax::run, crate::specs::Tail::motion_params), using(frame::proofs::FlagLaws::flags, frame::proofs::FlagLaws::bit_if))]
fn motion_params(
    r: BitReader,
    s: &[u8],
    coding: &Coding,
    x: FrameFront,
    z: Shape,
    slots: &[RefSlot; 8],
) -> Read<()>
    ensures { reading result ≡ run (spec.motion_params coding.now x z slots.now) s.now r.pos }
{
    let tools = &coding.tools;
    let inter = !x.start.frame_type.is_intra();
    let hints = OrderHints {
        refs: dpb::ref_hints(slots, z.ref_frame_idx),
        order_hint: x.modes.order_hint,
        order_hint_bits_minus_1: coding.screen.order_hint_bits_minus_1,
    };
    let (select, r) = r.flag_or(s, inter, false)?;
    let (_, r) = skip::skip_mode_params(r, s, select && tools.enable_order_hint, hints)?;
    let warps = !x.start.error_resilient_mode && tools.enable_warped_motion;
    let (_warped, r) = r.flag_or(s, inter && warps, false)?;
    let (_reduced, r) = r.flag(s)?;
    motion::global_motion_params(r, s, inter, z.allow_high_precision_mv)
}

#[tactic(auto, unfolding(syntax::specs::Syntax::run, crate::specs::Tail::frame_tail))]
pub(crate) fn frame_tail(
    r: BitReader,
    s: &[u8],
    coding: &Coding,
    x: FrameFront,
    z: Shape,
    slots: &[RefSlot; 8],
) -> Read<Quantizer>
    ensures read { reading result ≡ run (spec.frame_tail sign_magnitude coding.now x z slots.now) s.now r.pos }
    ensures fits { IfOk result (λ x. Ranged x.0) }
{
    let color = !coding.color.mono_chrome;
    let apart = coding.sampling.separate_uv_delta_q;
    let (q, r) = quant::quantization_params(r, s, color, apart)?;
    let none = x.modes.primary_ref_frame == PRIMARY_REF_NONE;
    let (alt_q, r) = segments::segmentation_params(r, s, none)?;
    let (present, r) = deltas::delta_q_params(r, s, q.base_q_idx)?;
    let (_, r) = deltas::delta_lf_params(r, s, present && !z.allow_intrabc)?;
    let lossless = lossless::coded_lossless(q, alt_q);
    let (_, r) = filter_params(r, s, lossless, coding, z)?;
    let (_, r) = motion_params(r, s, coding, x, z, slots)?;
    Ok((q, r))
}
