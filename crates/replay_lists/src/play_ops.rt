// The operation of the crate player.
ghost use Rattle.std.specs.Prelude.{◌≡◌};
ghost use Rattle.player.specs.Values.{shown_says};
ghost use Rattle.protocol.specs.Answers.{line, numbered, Tells};
ghost use Rattle.replay_lists.specs.Plays.{shown_fields, play_told};

use bitio::refusal::Refusal;
use obu::reader::part_in;
use player::play::State;
use protocol::answer::{Answer, Numbers};
use protocol::kinds::{Before, Item, Kind, NO_BYTE};

// What was shown, with its kind told.
fn put_shown(shown: Result<Option<u64>, Refusal>, numbers: &mut Numbers<'_>)
    ensures { Tells numbers.old numbers.new (shown_fields (shown_says shown)) }
{
    let (kind, v) = match shown {
        Ok(Some(position)) => (Kind::Number, position),
        Ok(None) => (Kind::OptionalByte, NO_BYTE),
        Err(refusal) => (Kind::Refused, u64::from(u32::from(refusal))),
    };
    let item = Item {
        before: Before::Space,
        kind,
    };
    numbers.put_pair(u64::from(item), v);
}

// play POS:UNIT ..
pub fn play(s: &[u8], ends: &[u32], positions: &[u64], numbers: &mut [u64]) -> Answer
    ensures { numbered (line result) numbers.new ≡ play_told s.now ends.now positions.now numbers.old }
{
    let mut state = State::start();
    let mut told = Numbers::new(numbers);
    for (i, position) in positions.iter().enumerate() {
        let shown = state.play(*position, part_in(s, ends, i));
        put_shown(shown, &mut told);
    }
    told.answer
}
