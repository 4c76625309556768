// What is asked of the units of a segment: a shown key, and a golden that is shown, is no key and refreshes a slot.
ghost use Rattle.std.specs.Prelude.{◌≡◌};
ghost use Rattle.bitio.specs.Parse.{accepted, and_next};
ghost use Rattle.bitio.specs.Refusal.{says};
ghost use Rattle.header.specs.Sequence.{sequence_in};
ghost use Rattle.pictures.specs.Prepare.{key_ok, golden_flags, slot_of};
ghost use Rattle.pictures.specs.Flat.{readable, judged};

use crate::slot::lowest_refreshed_slot;
use bitio::refusal::Refusal;
use frame::frame_header::{FrameHeaderInfo, FrameType};
use frame::unit_frame::unit_frame;
use header::seq_header::SequenceObu;
use obu::unit::{Kind, count_obus};

// 29: a key's header is not that of a shown key.
fn check_key(info: FrameHeaderInfo) -> Result<(), Refusal>
    ensures { says result ≡ key_ok info }
{
    match info {
        FrameHeaderInfo::Frame(f) if f.frame_type == FrameType::Key && f.show_frame => Ok(()),
        _ => Err(Refusal::KeyIsNoShownKeyFrame),
    }
}

// The slot that a golden's header refreshes, or 30 to 33.
#[tactic(auto, unfolding(bitio::specs::Parse::and_next))]
fn refreshed_slot(info: FrameHeaderInfo) -> Result<u8, Refusal>
    ensures { says result ≡ and_next (golden_flags info) (λ flags. accepted (slot_of flags)) }
{
    let FrameHeaderInfo::Frame(f) = info else {
        return Err(Refusal::GoldenShowsExisting);
    };
    if !f.show_frame {
        return Err(Refusal::GoldenNotShown);
    }
    if f.frame_type == FrameType::Key {
        return Err(Refusal::GoldenIsKeyFrame);
    }
    if f.refresh_frame_flags == 0 {
        return Err(Refusal::GoldenNotStored);
    }
    Ok(lowest_refreshed_slot(f.refresh_frame_flags))
}

// The OBUs of a unit that is read to be rewritten: 1 to 5; any other is not looked at.
fn check_obus(unit: &[u8], rewriting: bool) -> Result<(), Refusal>
    ensures { says result ≡ readable rewriting unit.now }
{
    if rewriting {
        count_obus(unit, Kind::Any)?;
    }
    Ok(())
}

// The slot that the show units of a segment name: the lowest that the first frame header of its golden refreshes.
#[tactic(auto, unfolding(crate::specs::Flat::judged, bitio::specs::Parse::and_next))]
pub fn golden_slot(
    key: &[u8],
    golden: &[u8],
    sequence: &SequenceObu,
    rewriting: bool,
) -> Result<u8, Refusal>
    ensures { says result ≡ judged (sequence_in sequence.now) rewriting key.now golden.now }
{
    check_obus(key, rewriting)?;
    check_obus(golden, rewriting)?;
    check_key(unit_frame(key, sequence, false)?)?;
    refreshed_slot(unit_frame(golden, sequence, false)?)
}
