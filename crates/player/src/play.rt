// The player's state, and a unit played on it: document 01's entry.
ghost use Rattle.std.specs.Prelude.{◌≡◌};
ghost use Rattle.bitio.specs.Parse.{answer};
ghost use Rattle.player.specs.Player.{play};
ghost use Rattle.player.specs.Values.{shown_says, state_says, start_state, state_left};

use crate::keep::keep_headers;
use crate::slots::{Slots, step};
use bitio::limits::check_limit;
use bitio::refusal::Refusal;
use frame::unit_frame::unit_frame;
use header::seq_header::SequenceObu;

#[derive(Clone, Copy)]
pub struct State {
    pub slots: Slots,
    // the last sequence header, if there has been one
    pub kept: Option<SequenceObu>,
}

impl State {
    // Before the first unit.
    pub fn start() -> State
        ensures { result ≡ start_state }
    {
        State {
            slots: [None; 8],
            kept: None,
        }
    }

    // A unit, played under a position: the position shown, if any. A refused one leaves the state as it was.
    pub fn play(&mut self, position: u64, unit: &[u8]) -> Result<Option<u64>, Refusal>
        ensures answer { shown_says result ≡ answer (λ r. r.shown) (play (state_says self.old) position unit.now) }
        ensures state { self.new ≡ state_left self.old position unit.now }
    {
        check_limit(unit)?;
        let kept = keep_headers(self.kept, unit)?;
        let sequence = kept.ok_or(Refusal::NoSequenceHeader)?;
        let info = unit_frame(unit, &sequence, true)?;
        // document 01's form: a step by value, whose result the lent slots take
        let (slots, shown) = step(self.slots, position, info)?;
        self.slots = slots;
        self.kept = kept;
        Ok(shown)
    }

    // The same by value: the answer, and the state behind it.
    pub fn played(mut self, position: u64, unit: &[u8]) -> (Result<Option<u64>, Refusal>, State)
        ensures answer { shown_says result.0 ≡ answer (λ r. r.shown) (play (state_says self) position unit.now) }
        ensures state { result.1 ≡ state_left self position unit.now }
    {
        let shown = self.play(position, unit);
        (shown, self)
    }
}
