// The frame header to its end (AV1 5.9.2): what the Rust's scan_uncompressed_header reads, and what it leaves in the slots.
ghost use Rattle.std.specs.Prelude.{◌≡◌, IfOk};
ghost use Rattle.bitio.specs.Read.{reading};
ghost use Rattle.bitio.specs.Refusal.{says};
ghost use Rattle.syntax.specs.Syntax.{run};
ghost use Rattle.params.specs.Lossless.{sign_magnitude};
ghost use Rattle.params.specs.Quantization.{Ranged};
ghost use Rattle.uheader.specs.Scan as spec;

use crate::scanner::Scanner;
use crate::shape::Shape;
use crate::{shape, tail};
use bitio::limits::check_limit;
use bitio::reader::{BitReader, Read};
use bitio::refusal::Refusal;
use frame::frame_header::{FrameFront, FrameInfo, FrameType, sections};
use frame::refresh::refresh;
use geometry::size::Size;
use geometry::slots::RefSlot;
use geometry::tiles::tile_info;
use header::seq_header::SequenceHeader;
use header::seq_header::read::parse_sequence_header;
use params::quant::Quantizer;
use syntax::signed::su_7;

// The quantizer deltas, as signed numbers.
#[derive(Clone, Copy)]
pub struct Deltas {
    pub y_dc: i64,
    pub u_dc: i64,
    pub u_ac: i64,
    pub v_dc: i64,
    pub v_ac: i64,
}

#[derive(Clone, Copy)]
pub struct HeaderScan {
    // the bit position behind primary_ref_frame
    pub removal_insert_pos: usize,
    // and behind the last field
    pub end_pos: usize,
    pub frame: FrameInfo,
    pub size: Size,
    pub base_q_idx: u64,
    pub deltas: Deltas,
}

// All that follows primary_ref_frame.
#[derive(Clone, Copy)]
pub struct Rest {
    pub shape: Shape,
    pub quantizer: Quantizer,
}

// show_existing_frame to primary_ref_frame.
#[tactic(auto, unfolding(syntax::specs::Syntax::run, crate::specs::Scan::scan_front), using(frame::proofs::FlagLaws::flags))]
fn scan_front(r: BitReader, s: &[u8], header: &SequenceHeader) -> Read<FrameFront>
    ensures { reading result ≡ run (spec.scan_front header.now) s.now r.pos }
{
    let (existing, r) = r.flag(s)?;
    if existing {
        return Err(Refusal::ShowsExisting);
    }
    sections::frame_front(r, s, false, header)
}

// The same under a sequence header that is looked at first.
#[tactic(auto, unfolding(crate::specs::Scan::open_scan))]
fn open_scan(header: &SequenceHeader, payload: &[u8]) -> Read<FrameFront>
    ensures { reading result ≡ spec.open_scan header.now payload.now }
{
    if header.opening.reduced_still_picture_header {
        return Err(Refusal::ReducedStillPicture);
    }
    if header.coding.film_grain_params_present {
        return Err(Refusal::FilmGrainOn);
    }
    if header.coding.ids.frame_id_numbers_present {
        return Err(Refusal::FrameIdsOn);
    }
    scan_front(BitReader { pos: 0 }, payload, header)
}

// What follows primary_ref_frame.
#[tactic(auto, unfolding(syntax::specs::Syntax::run, crate::specs::Scan::scan_rest))]
fn scan_rest(
    r: BitReader,
    s: &[u8],
    scanner: Scanner,
    slots: &[RefSlot; 8],
    x: FrameFront,
) -> Read<Rest>
    ensures read { reading result ≡ run (spec.scan_rest sign_magnitude scanner.entry.header.now scanner.entry.removals slots.now x) s.now r.pos }
    ensures fits { IfOk result (λ x. Ranged x.0.quantizer) }
{
    let coding = &scanner.header.coding;
    let (shape, r) = shape::frame_shape(r, s, scanner, slots, x)?;
    let (_, r) = tile_info(r, s, shape.size, coding.tools.use_128x128_superblock)?;
    let (quantizer, r) = tail::frame_tail(r, s, coding, x, shape, slots)?;
    Ok((Rest { shape, quantizer }, r))
}

fn signed_deltas(q: Quantizer) -> Deltas
    requires { Ranged q }
    ensures { result ≡ spec.deltas_of q }
{
    Deltas {
        y_dc: su_7(q.delta_q_y_dc),
        u_dc: su_7(q.delta_q_u_dc),
        u_ac: su_7(q.delta_q_u_ac),
        v_dc: su_7(q.delta_q_v_dc),
        v_ac: su_7(q.delta_q_v_ac),
    }
}

// What a frame leaves in a slot that it refreshes.
fn slot_of(frame: FrameInfo, size: Size) -> RefSlot
    ensures { result ≡ spec.ref_slot_of frame size }
{
    RefSlot {
        order_hint: frame.order_hint,
        size,
        is_key_frame: frame.frame_type == FrameType::Key,
    }
}

// The fields of a header, by the slots before the frame.
#[tactic(auto, unfolding(crate::specs::Scan::scan_header, crate::specs::Scan::scan_by, crate::specs::Scan::scan_behind))]
fn scan_fields(
    scanner: Scanner,
    slots: &[RefSlot; 8],
    payload: &[u8],
) -> Result<HeaderScan, Refusal>
    ensures { says result ≡ spec.scan_header scanner.entry.header.now scanner.entry.removals slots.now payload.now }
{
    let (front, r) = open_scan(scanner.header, payload)?;
    let removal_insert_pos = r.pos;
    let (rest, r) = scan_rest(r, payload, scanner, slots, front)?;
    Ok(HeaderScan {
        removal_insert_pos,
        end_pos: r.pos,
        frame: sections::info_of(front, rest.shape.refresh_frame_flags),
        size: rest.shape.size,
        base_q_idx: rest.quantizer.base_q_idx,
        deltas: signed_deltas(rest.quantizer),
    })
}

impl Scanner<'_> {
    // A frame header. The slots become those behind the frame; after a refusal they stay. For crates that scan many frames
    // under one sequence header, within the limit.
    pub fn scan_header(
        self,
        slots: &mut [RefSlot; 8],
        payload: &[u8],
    ) -> Result<HeaderScan, Refusal>
        ensures answer { says result ≡ spec.scan_header self.entry.header.now self.entry.removals slots.old payload.now }
        ensures slots { slots.new ≡ spec.slots_after slots.old (spec.scan_header self.entry.header.now self.entry.removals slots.old payload.now) }
    {
        let scan = scan_fields(self, slots, payload)?;
        let new = slot_of(scan.frame, scan.size);
        refresh(slots, scan.frame.refresh_frame_flags, new);
        Ok(scan)
    }
}

// scan_uncompressed_header from both payloads: 34 of either leads.
pub fn scan_uncompressed_header(
    payload: &[u8],
    sequence: &[u8],
    slots: &mut [RefSlot; 8],
) -> Result<HeaderScan, Refusal>
    ensures answer { says result ≡ spec.scan_payloads sequence.now slots.old payload.now }
    ensures slots { slots.new ≡ spec.slots_after slots.old (spec.scan_payloads sequence.now slots.old payload.now) }
{
    check_limit(payload)?;
    let sequence = parse_sequence_header(sequence)?;
    let scanner = Scanner {
        header: &sequence.header,
        removals: sections::removals(sequence.points()),
    };
    scanner.scan_header(slots, payload)
}
