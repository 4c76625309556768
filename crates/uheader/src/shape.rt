// The frame header from the removal times to what stands before tile_info (AV1 5.9.2).
ghost use Rattle.std.specs.Prelude.{◌≡◌, ◌+◌};
ghost use Rattle.bitio.specs.Read.{reading};
ghost use Rattle.syntax.specs.Syntax.{run};
ghost use Rattle.uheader.specs.Shape as spec;

use crate::scanner::Scanner;
use bitio::reader::{BitReader, Read};
use frame::frame_header::{FrameFront, sections};
use geometry::size::{Size, SizeRules};
use geometry::slots::RefSlot;
use geometry::{refs, size};
use header::seq_header::Coding;
use syntax::over::read_over;

// What the later sections and the slots need of the earlier ones.
#[derive(Clone, Copy)]
pub struct Shape {
    pub refresh_frame_flags: u64,
    pub ref_frame_idx: [u64; 7],
    pub size: Size,
    pub allow_intrabc: bool,
    pub allow_high_precision_mv: bool,
}

#[tactic(auto, unfolding(syntax::specs::Syntax::run, crate::specs::Shape::ref_order_hints))]
fn ref_order_hints(r: BitReader, s: &[u8], on: bool, less: u64) -> Read<()>
    ensures { reading result ≡ run (spec.ref_order_hints on (less + 1)) s.now r.pos }
{
    read_over(r, s, less, if on { 8 } else { 0 })
}

// allow_high_precision_mv to use_ref_frame_mvs.
#[tactic(auto, unfolding(syntax::specs::Syntax::run, crate::specs::Shape::motion_modes), using(frame::proofs::FlagLaws::flags, frame::proofs::FlagLaws::bit_if))]
fn motion_modes(r: BitReader, s: &[u8], coding: &Coding, x: FrameFront) -> Read<bool>
    ensures { reading result ≡ run (spec.motion_modes coding.now x) s.now r.pos }
{
    let inter = !x.start.frame_type.is_intra();
    let resilient = x.start.error_resilient_mode;
    let (fine, r) = r.flag_or(s, inter && !x.modes.force_integer_mv, false)?;
    let (switchable, r) = r.flag_or(s, inter, false)?;
    let (_filter, r) = r.f_if(s, inter && !switchable, 2)?;
    let (_motion, r) = r.flag_or(s, inter, false)?;
    let told = !resilient && coding.tools.enable_ref_frame_mvs;
    let (_mvs, r) = r.flag_or(s, inter && told, false)?;
    Ok((fine, r))
}

// The slots are those before the frame.
#[tactic(auto, unfolding(syntax::specs::Syntax::run, crate::specs::Shape::frame_shape), using(frame::proofs::FlagLaws::flags, frame::proofs::FlagLaws::bit_if))]
pub(crate) fn frame_shape(
    r: BitReader,
    s: &[u8],
    scanner: Scanner,
    slots: &[RefSlot; 8],
    x: FrameFront,
) -> Read<Shape>
    ensures { reading result ≡ run (spec.frame_shape scanner.entry.header.now scanner.entry.removals slots.now x) s.now r.pos }
{
    let coding = &scanner.header.coding;
    let m = &scanner.header.opening.model;
    let intra = x.start.frame_type.is_intra();
    let resilient = x.start.error_resilient_mode;
    let hinted = coding.tools.enable_order_hint;
    let (flags, r) = sections::refresh_flags(r, s, m, scanner.removals, x.start)?;
    let listed = (!intra || flags != 255) && (resilient && hinted);
    let (_, r) = ref_order_hints(r, s, listed, coding.screen.order_hint_bits_minus_1)?;
    let (ref_frame_idx, r) = refs::frame_refs(r, s, !intra, hinted)?;
    let rules = SizeRules {
        largest: coding.size,
        enable_superres: coding.filters.enable_superres,
    };
    let over = x.modes.frame_size_override_flag;
    let by_refs = !intra && (over && !resilient);
    let (size, r) = size::frame_geometry(r, s, rules, over, by_refs, ref_frame_idx, slots)?;
    let unscaled = size.upscaled_width == size.frame_width;
    let told = intra && (x.modes.allow_screen_content_tools && unscaled);
    let (allow_intrabc, r) = r.flag_or(s, told, false)?;
    let (allow_high_precision_mv, r) = motion_modes(r, s, coding, x)?;
    let (_disable, r) = r.flag_or(s, !x.modes.disable_cdf_update, false)?;
    let shape = Shape {
        refresh_frame_flags: flags,
        ref_frame_idx,
        size,
        allow_intrabc,
        allow_high_precision_mv,
    };
    Ok((shape, r))
}
