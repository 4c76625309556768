// The sections of a frame header (AV1 5.9.2) up to refresh_frame_flags.
ghost use Rattle.std.specs.Prelude.{◌≡◌};
ghost use Rattle.bitio.specs.Read.{reading};
ghost use Rattle.obu.specs.Unit.{count};
ghost use Rattle.syntax.specs.Syntax.{run};
ghost use Rattle.header.specs.Support.{has_point_info};
ghost use Rattle.frame.specs.Frame.{modelled, all_slots, frame_start, chosen, frame_modes, frame_front, buffer_removal, refresh_flags, info_of};

use crate::frame_header::{
    FrameFront, FrameInfo, FrameModes, FrameStart, FrameType, PRIMARY_REF_NONE,
};
use bitio::reader::{BitReader, Read};
use bitio::refusal::Refusal;
use header::seq_header::{Coding, DecoderModelInfo, Opening, OperatingPoint, SequenceHeader};
use syntax::over::{read_over, width_if};

// Each frame says: SELECT_SCREEN_CONTENT_TOOLS and SELECT_INTEGER_MV.
const SELECT: u64 = 2;

// Whether shown frames carry temporal_point_info.
pub(crate) fn has_point_info(o: &Opening) -> bool
    ensures { result ≡ has_point_info o.now }
{
    o.model.decoder_model_info_present && !o.timing.equal_picture_interval
}

// Whether a frame refreshes all slots and is error resilient without a bit.
fn all_slots(frame_type: FrameType, shown: bool) -> bool
    ensures { result ≡ all_slots frame_type shown }
{
    frame_type == FrameType::Switch || (frame_type == FrameType::Key && shown)
}

// frame_type to error_resilient_mode.
#[tactic(auto, unfolding(syntax::specs::Syntax::run, crate::specs::Frame::frame_start, bitio::specs::Fields::flag_or), using(crate::proofs::FlagLaws::flags))]
fn frame_start(r: BitReader, s: &[u8], strict: bool, o: &Opening) -> Read<FrameStart>
    ensures { reading result ≡ run (frame_start strict o.now) s.now r.pos }
{
    let (kind, r) = r.f(s, 2)?;
    let (show_frame, r) = r.flag(s)?;
    let frame_type = FrameType::from(kind);
    let timed = show_frame && has_point_info(o);
    if strict && timed {
        return Err(Refusal::UnequalIntervals);
    }
    let (_, r) = width_if(r, s, timed, o.model.frame_presentation_time_length_minus_1)?;
    let all = all_slots(frame_type, show_frame);
    let (showable_frame, r) = r.flag_or(s, !show_frame, frame_type != FrameType::Key)?;
    let (error_resilient_mode, r) = r.flag_or(s, !all, true)?;
    let start = FrameStart {
        frame_type,
        show_frame,
        showable_frame,
        error_resilient_mode,
    };
    Ok((start, r))
}

// allow_screen_content_tools or force_integer_mv, where on: the sequence header's word, or the frame's own bit.
#[tactic(auto, unfolding(syntax::specs::Syntax::run, bitio::specs::Fields::flag_or), using(crate::proofs::FlagLaws::flags, std::proofs::lemmas::Bool::Decides::nat_tests))]
fn chosen(r: BitReader, s: &[u8], on: bool, force: u64) -> Read<bool>
    ensures { reading result ≡ run (chosen on force) s.now r.pos }
{
    r.flag_or(s, on && force == SELECT, on && force == 1)
}

// disable_cdf_update to primary_ref_frame.
#[tactic(auto, unfolding(syntax::specs::Syntax::run, crate::specs::Frame::frame_modes, bitio::specs::Fields::flag_or, bitio::specs::Fields::read_or), using(crate::proofs::FlagLaws::flags))]
fn frame_modes(r: BitReader, s: &[u8], coding: &Coding, f: FrameStart) -> Read<FrameModes>
    ensures { reading result ≡ run (frame_modes coding.now f) s.now r.pos }
{
    let screen = &coding.screen;
    let switch = f.frame_type == FrameType::Switch;
    let intra = f.frame_type.is_intra();
    let (disable_cdf_update, r) = r.flag(s)?;
    let (tools, r) = chosen(r, s, true, screen.seq_force_screen_content_tools)?;
    let (mv, r) = chosen(r, s, tools, screen.seq_force_integer_mv)?;
    let (frame_size_override_flag, r) = r.flag_or(s, !switch, true)?;
    let hints = coding.tools.enable_order_hint;
    let (order_hint, r) = width_if(r, s, hints, screen.order_hint_bits_minus_1)?;
    let apart = !intra && !f.error_resilient_mode;
    let (primary_ref_frame, r) = r.f_or(s, apart, 3, PRIMARY_REF_NONE)?;
    let modes = FrameModes {
        disable_cdf_update,
        allow_screen_content_tools: tools,
        force_integer_mv: intra || mv,
        frame_size_override_flag,
        order_hint,
        primary_ref_frame,
    };
    Ok((modes, r))
}

// frame_type to primary_ref_frame.
#[tactic(auto, unfolding(syntax::specs::Syntax::run, crate::specs::Frame::frame_front))]
pub fn frame_front(
    r: BitReader,
    s: &[u8],
    strict: bool,
    header: &SequenceHeader,
) -> Read<FrameFront>
    ensures { reading result ≡ run (frame_front strict header.now) s.now r.pos }
{
    let (start, r) = frame_start(r, s, strict, &header.opening)?;
    let (modes, r) = frame_modes(r, s, &header.coding, start)?;
    Ok((FrameFront { start, modes }, r))
}

// What a frame's own header says of it.
pub fn info_of(x: FrameFront, flags: u64) -> FrameInfo
    ensures { result ≡ info_of x flags }
{
    FrameInfo {
        frame_type: x.start.frame_type,
        show_frame: x.start.show_frame,
        showable_frame: x.start.showable_frame,
        refresh_frame_flags: flags,
        order_hint: x.modes.order_hint,
    }
}

// How many removal times a frame header has: one for each operating point with a model. The sections take any number.
pub fn removals(points: &[OperatingPoint]) -> usize
    ensures { result ≡ count modelled points.now }
{
    points.iter().filter(|x| x.decoder_model_present).count()
}

// buffer_removal_time_present_flag and the removal times.
#[tactic(auto, unfolding(syntax::specs::Syntax::run, crate::specs::Frame::buffer_removal, bitio::specs::Fields::flag_or), using(crate::proofs::FlagLaws::flags))]
fn buffer_removal(r: BitReader, s: &[u8], m: &DecoderModelInfo, removals: usize) -> Read<()>
    ensures { reading result ≡ run (buffer_removal m.now removals) s.now r.pos }
{
    let (present, r) = r.flag_or(s, m.decoder_model_info_present, false)?;
    let times = if present { removals } else { 0 };
    read_over(r, s, m.buffer_removal_time_length_minus_1, times)
}

// The same, and refresh_frame_flags.
#[tactic(auto, unfolding(syntax::specs::Syntax::run, crate::specs::Frame::refresh_flags, bitio::specs::Fields::read_or))]
pub fn refresh_flags(
    r: BitReader,
    s: &[u8],
    m: &DecoderModelInfo,
    removals: usize,
    f: FrameStart,
) -> Read<u64>
    ensures { reading result ≡ run (refresh_flags m.now removals f) s.now r.pos }
{
    let (_, r) = buffer_removal(r, s, m, removals)?;
    r.f_or(s, !all_slots(f.frame_type, f.show_frame), 8, 255)
}
