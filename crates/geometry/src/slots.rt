// What each of the eight reference slots keeps of the frame that it holds (AV1 7.20).
ghost use Rattle.std.specs.Prelude.{◌≡◌, get_or};
ghost use Rattle.geometry.specs.Slots as spec;

use crate::size::Size;

// The default is a slot that holds no frame.
#[derive(Clone, Copy, Default)]
pub struct RefSlot {
    pub order_hint: u64,
    pub size: Size,
    pub is_key_frame: bool,
}

// Slot i of eight; for any other number one that holds no frame.
pub fn slot_at(slots: &[RefSlot; 8], i: u64) -> RefSlot
    ensures { result ≡ get_or slots.now i spec.empty_slot }
{
    slots.get(i as usize).copied().unwrap_or_default()
}
