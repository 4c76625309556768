// A scanned frame, and the slots, in the protocol's order, their kinds told: a number behind a space, and the others each
// behind a colon.
ghost use Rattle.bitio.specs.Refusal.{says};
ghost use Rattle.protocol.specs.Answers.{Tells};
ghost use Rattle.replay_scan.specs.Scans.{place_fields, size_fields, scan_fields, frame_fields, slot_fields, slots_fields};

use crate::deltas::put_deltas;
use bitio::refusal::Refusal;
use geometry::slots::RefSlot;
use protocol::answer::Numbers;
use protocol::kinds::{Before, Item, Kind, NUMBER, packed};
use uheader::scan::HeaderScan;

const COLON: Item = Item {
    before: Before::Colon,
    kind: Kind::Number,
};

const REFUSED: Item = Item {
    before: Before::Space,
    kind: Kind::Refused,
};

const SLOTS: Item = Item {
    before: Before::Space,
    kind: Kind::Slots,
};

// INSERT to HEIGHT
fn put_place(x: HeaderScan, numbers: &mut Numbers<'_>)
    ensures { Tells numbers.old numbers.new (place_fields x) }
{
    let fields = [
        packed(&[NUMBER, COLON, COLON, COLON, COLON, COLON, COLON, COLON]),
        x.removal_insert_pos as u64,
        x.end_pos as u64,
        u64::from(x.frame.frame_type),
        x.frame.show_frame as u64,
        x.frame.showable_frame as u64,
        x.frame.refresh_frame_flags,
        u64::from(x.size.frame_width),
        u64::from(x.size.frame_height),
    ];
    numbers.put_list(&fields);
}

// UPSCALED to BASEQ
fn put_size(x: HeaderScan, numbers: &mut Numbers<'_>)
    ensures { Tells numbers.old numbers.new (size_fields x) }
{
    let fields = [
        packed(&[COLON, COLON, COLON, COLON, COLON]),
        u64::from(x.size.upscaled_width),
        u64::from(x.size.render_width),
        u64::from(x.size.render_height),
        x.frame.order_hint,
        x.base_q_idx,
    ];
    numbers.put_list(&fields);
}

#[tactic(auto, using(protocol::proofs::AnswerLaws::numbers_more))]
fn put_scan(x: HeaderScan, numbers: &mut Numbers<'_>)
    ensures { Tells numbers.old numbers.new (scan_fields x) }
{
    put_place(x, numbers);
    put_size(x, numbers);
    put_deltas(x.deltas, numbers);
}

pub(crate) fn put_frame(x: Result<HeaderScan, Refusal>, numbers: &mut Numbers<'_>)
    ensures { Tells numbers.old numbers.new (frame_fields (says x)) }
{
    match x {
        Ok(scan) => put_scan(scan, numbers),
        Err(refusal) => numbers.put_pair(u64::from(REFUSED), u64::from(u32::from(refusal))),
    }
}

fn put_slot(x: RefSlot, numbers: &mut Numbers<'_>)
    ensures { Tells numbers.old numbers.new (slot_fields x) }
{
    let fields = [
        packed(&[NUMBER, COLON, COLON, COLON, COLON, COLON, COLON]),
        x.order_hint,
        u64::from(x.size.upscaled_width),
        u64::from(x.size.frame_width),
        u64::from(x.size.frame_height),
        u64::from(x.size.render_width),
        u64::from(x.size.render_height),
        x.is_key_frame as u64,
    ];
    numbers.put_list(&fields);
}

pub(crate) fn put_slots(slots: &[RefSlot; 8], numbers: &mut Numbers<'_>)
    ensures { Tells numbers.old numbers.new (slots_fields slots.now) }
{
    numbers.put_pair(u64::from(SLOTS), 0);
    for slot in slots {
        put_slot(*slot, numbers);
    }
}
