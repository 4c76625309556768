// The operation of the crate pictures.
ghost use Rattle.std.specs.Prelude.{◌≡◌};
ghost use Rattle.protocol.specs.Answers.{line, numbered};
ghost use Rattle.replay_lists.specs.Slots.{slot_told};

use pictures::slot::lowest_refreshed_slot;
use protocol::answer::{Answer, done};

// slot FLAGS
pub fn slot(flags: u64, numbers: &mut [u64]) -> Answer
    ensures { numbered (line result) numbers.new ≡ slot_told flags numbers.old }
{
    done().number(u64::from(lowest_refreshed_slot(flags)), numbers)
}
