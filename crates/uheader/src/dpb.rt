// The slots before the first frame, and what a frame's references say (AV1 7.20).
ghost use Rattle.std.specs.Prelude.{◌≡◌, map, get_or};
ghost use Rattle.geometry.specs.Slots.{empty_slot};
ghost use Rattle.uheader.specs.Scan.{empty_slots};

use geometry::slots::{RefSlot, slot_at};

// Before the first frame.
pub fn empty_slots() -> [RefSlot; 8]
    ensures { result ≡ empty_slots }
{
    [RefSlot::default(); 8]
}

// The order hints of the references.
pub(crate) fn ref_hints(slots: &[RefSlot; 8], refs: [u64; 7]) -> [u64; 7]
    ensures { result ≡ map (λ i. (get_or slots.now i empty_slot).order_hint) refs }
{
    refs.map(
        |i| -> u64
            ensures value { result ≡ (get_or slots.entry.now i empty_slot).order_hint }
            ensures kept { slots.exit.now ≡ slots.entry.now }
        { slot_at(slots, i).order_hint },
    )
}
