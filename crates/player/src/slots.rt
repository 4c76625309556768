// The eight slots, and what a frame does to them (AV1 7.20 and 7.21).
ghost use Rattle.std.specs.Prelude.{◌≡◌, get_or};
ghost use Rattle.player.specs.Player.{empty, show_slot, act};
ghost use Rattle.player.specs.Values.{step_says};

use bitio::refusal::Refusal;
use frame::frame_header::{FrameHeaderInfo, FrameType};
use frame::refresh::refresh;

// What a slot holds: the unit at a position, and what its frame says.
#[derive(Clone, Copy)]
pub struct Slot {
    pub position: u64,
    pub showable: bool,
    pub key: bool,
}

pub type Slots = [Option<Slot>; 8];

// A slot is shown: the slots afterwards, and its position. A key so shown fills all eight.
fn show_slot(slots: Slots, slot: u64) -> Result<(Slots, Option<u64>), Refusal>
    ensures { step_says result ≡ show_slot slots (get_or slots slot empty) }
{
    let Some(&Some(held)) = slots.get(slot as usize) else {
        return Err(Refusal::EmptySlot);
    };
    if !held.showable {
        return Err(Refusal::NotShowable);
    }
    let after = if held.key { [Some(held); 8] } else { slots };
    Ok((after, Some(held.position)))
}

// A frame, played under a position: the slots afterwards, and the position shown, if any.
pub(crate) fn step(
    mut slots: Slots,
    position: u64,
    info: FrameHeaderInfo,
) -> Result<(Slots, Option<u64>), Refusal>
    ensures { step_says result ≡ act slots position info }
{
    match info {
        FrameHeaderInfo::Existing(slot) => show_slot(slots, slot),
        FrameHeaderInfo::Frame(f) => {
            let held = Slot {
                position,
                showable: f.showable_frame,
                key: f.frame_type == FrameType::Key,
            };
            refresh(&mut slots, f.refresh_frame_flags, Some(held));
            Ok((slots, f.show_frame.then_some(position)))
        }
    }
}
