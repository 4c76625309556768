// Reading a frame header (AV1 5.9.2) up to refresh_frame_flags.
ghost use Rattle.std.specs.Prelude.{◌≡◌};
ghost use Rattle.bitio.specs.Limits.{limited};
ghost use Rattle.bitio.specs.Read.{reading};
ghost use Rattle.bitio.specs.Refusal.{says};
ghost use Rattle.syntax.specs.Syntax.{run};
ghost use Rattle.header.specs.Sequence.{sequence_in};
ghost use Rattle.frame.specs.Frame.{show_existing, frame_info, frame_bits, parse_frame, parse_frame_from};

use crate::frame_header::{FrameHeaderInfo, FrameInfo, sections};
use bitio::limits::check_limit;
use bitio::reader::{BitReader, Read};
use bitio::refusal::Refusal;
use header::seq_header::read::parse_sequence_header;
use header::seq_header::{SequenceHeader, SequenceObu};

// A frame that is shown again.
#[tactic(auto, unfolding(syntax::specs::Syntax::run, crate::specs::Frame::show_existing))]
fn show_existing(r: BitReader, s: &[u8], point_info: bool) -> Read<FrameHeaderInfo>
    ensures { reading result ≡ run (show_existing point_info) s.now r.pos }
{
    let (slot, r) = r.f(s, 3)?;
    if point_info {
        return Err(Refusal::UnequalIntervals);
    }
    Ok((FrameHeaderInfo::Existing(slot), r))
}

// A frame that is not shown again.
#[tactic(auto, unfolding(syntax::specs::Syntax::run, crate::specs::Frame::frame_info))]
fn frame_info(r: BitReader, s: &[u8], header: &SequenceHeader, removals: usize) -> Read<FrameInfo>
    ensures { reading result ≡ run (frame_info header.now removals) s.now r.pos }
{
    let (front, r) = sections::frame_front(r, s, true, header)?;
    let model = &header.opening.model;
    let (flags, r) = sections::refresh_flags(r, s, model, removals, front.start)?;
    Ok((sections::info_of(front, flags), r))
}

// show_existing_frame, and what follows.
#[tactic(auto, unfolding(syntax::specs::Syntax::run, crate::specs::Frame::frame_bits), using(crate::proofs::FlagLaws::flags))]
fn frame_bits(
    r: BitReader,
    s: &[u8],
    header: &SequenceHeader,
    removals: usize,
) -> Read<FrameHeaderInfo>
    ensures { reading result ≡ run (frame_bits header.now removals) s.now r.pos }
{
    let (existing, r) = r.flag(s)?;
    if existing {
        return show_existing(r, s, sections::has_point_info(&header.opening));
    }
    let (info, r) = frame_info(r, s, header, removals)?;
    Ok((FrameHeaderInfo::Frame(info), r))
}

// A frame header under a sequence header that was read. For crates that read the frames of a unit within the limit.
#[tactic(auto, unfolding(crate::specs::Frame::parse_frame, crate::specs::Frame::frame_header))]
pub fn read_frame_header(sequence: &SequenceObu, payload: &[u8]) -> Result<FrameHeaderInfo, Refusal>
    ensures { says result ≡ parse_frame (sequence_in sequence.now) payload.now }
{
    if sequence.header.opening.reduced_still_picture_header {
        return Err(Refusal::ReducedStillPicture);
    }
    if sequence.header.coding.ids.frame_id_numbers_present {
        return Err(Refusal::FrameIdsOn);
    }
    let removals = sections::removals(sequence.points());
    let (info, _) = frame_bits(BitReader { pos: 0 }, payload, &sequence.header, removals)?;
    Ok(info)
}

// parse_frame_header_info under a header that was read, for callers that read many frames under one; 34 leads.
#[tactic(auto, unfolding(bitio::specs::Limits::limited))]
pub fn frame_header_info(sequence: &SequenceObu, payload: &[u8]) -> Result<FrameHeaderInfo, Refusal>
    ensures { says result ≡ limited payload.now (parse_frame (sequence_in sequence.now) payload.now) }
{
    check_limit(payload)?;
    read_frame_header(sequence, payload)
}

// parse_frame_header_info from both payloads, the frame's and the sequence header's: 34 of either leads.
pub fn parse_frame_header_info(payload: &[u8], sequence: &[u8]) -> Result<FrameHeaderInfo, Refusal>
    ensures { says result ≡ limited payload.now (limited sequence.now (parse_frame_from sequence.now payload.now)) }
{
    check_limit(payload)?;
    let sequence = parse_sequence_header(sequence)?;
    read_frame_header(&sequence, payload)
}
