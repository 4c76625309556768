// The frames of a board's units, scanned: the sizes of its key and its golden, and the slots behind both (02 §2).
ghost use Rattle.std.specs.Prelude.{◌≡◌, true};
ghost use Rattle.bitio.specs.Refusal.{says};
ghost use Rattle.boardscan.specs.Scans as spec;

use bitio::refusal::Refusal;
use geometry::size::Size;
use geometry::slots::RefSlot;
use obu::obus::Obus;
use obu::unit::{Kind, count_obus, first_payload, is_type};
use uheader::dpb::empty_slots;
use uheader::scan::scan_uncompressed_header;

// The size of a unit's first frame, and the slots behind the unit.
#[derive(Clone, Copy)]
pub struct Left {
    pub size: Size,
    pub slots: [RefSlot; 8],
}

// The sizes of the key and of the golden, and the slots behind both.
#[derive(Clone, Copy)]
pub struct SegmentScan {
    pub key: Result<Size, Refusal>,
    pub golden: Result<Size, Refusal>,
    pub slots: [RefSlot; 8],
}

// The frames of a unit whose OBUs were read, under a sequence header.
fn scan_frames(unit: &[u8], sequence: &[u8], slots: [RefSlot; 8]) -> Result<Left, Refusal>
    requires { spec.is_read unit.now ≡ true }
    ensures { says result ≡ spec.scan_under sequence.now slots unit.now }
{
    let mut behind = slots;
    let mut first: Option<Size> = None;
    for found in Obus::new(unit) {
        let o = found?;
        if is_type(Kind::Frame, o.obu_type) {
            let scan = scan_uncompressed_header(o.payload(unit), sequence, &mut behind)?;
            first = first.or(Some(scan.size));
        }
    }
    let size = first.ok_or(Refusal::NoFrame)?;
    Ok(Left {
        size,
        slots: behind,
    })
}

fn has_header(unit: &[u8]) -> bool
    ensures { result ≡ spec.has_header unit.now }
{
    count_obus(unit, Kind::SequenceHeader).unwrap_or(0) >= 1
}

// A unit under its own first sequence header, or under that of the unit that leads it. A refusal of its OBUs leads.
pub(crate) fn scan_unit(unit: &[u8], lead: &[u8], slots: [RefSlot; 8]) -> Result<Left, Refusal>
    ensures { says result ≡ spec.scan_unit lead.now slots unit.now }
{
    let own = count_obus(unit, Kind::SequenceHeader)?;
    if own >= 1 {
        return scan_frames(unit, first_payload(unit, Kind::SequenceHeader), slots);
    }
    if has_header(lead) {
        return scan_frames(unit, first_payload(lead, Kind::SequenceHeader), slots);
    }
    Err(Refusal::NoSequenceHeader)
}

// A refused unit leaves the slots as they were.
fn slots_behind(slots: [RefSlot; 8], scan: Result<Left, Refusal>) -> [RefSlot; 8]
    ensures { result ≡ spec.slots_behind slots (says scan) }
{
    match scan {
        Ok(left) => left.slots,
        Err(_) => slots,
    }
}

// A board from empty slots on.
#[tactic(auto, unfolding(crate::specs::Scans::scan_segment))]
pub(crate) fn scan_segment(key: &[u8], golden: &[u8]) -> SegmentScan
    ensures { spec.board_says result ≡ spec.sizes_of (spec.scan_segment key.now golden.now) }
{
    let slots = empty_slots();
    let first = scan_unit(key, key, slots);
    let between = slots_behind(slots, first);
    let second = scan_unit(golden, key, between);
    SegmentScan {
        key: first.map(|left| left.size),
        golden: second.map(|left| left.size),
        slots: slots_behind(between, second),
    }
}
