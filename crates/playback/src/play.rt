// Units in lent memory, played from a cue to the last.
ghost use Rattle.std.specs.Prelude.{◌≡◌, ◌+◌, ◌<◌, length};
ghost use Rattle.bitio.specs.Parse.{answer};
ghost use Rattle.container.specs.Lists.{unit_of};
ghost use Rattle.container.specs.Units.{units_at, out_after};
ghost use Rattle.player.specs.Player.{play};
ghost use Rattle.player.specs.Values.{shown_says, state_says, state_left};
ghost use Rattle.playback.specs.Lent.{Fills};
ghost use Rattle.playback.specs.Shown.{shown_of, all_say, shown_by, play_from, CanPlay};

use bitio::limits::check_limit;
use bitio::refusal::Refusal;
use container::lists::Units;
use player::play::State;

// What a position shows: a position, if any, or why its unit is refused.
pub type Shown = Result<Option<u64>, Refusal>;

// Unit i, played under its position, i + 1.
fn play_at(state: &mut State, units: Units, i: usize) -> Shown
    requires { i < length units.ends.now }
    ensures shown { shown_says result ≡ shown_of (play (state_says state.old) (i + 1) (unit_of units.entry.bytes.now units.entry.ends.now i)) }
    ensures state { state.new ≡ state_left state.old (i + 1) (unit_of units.entry.bytes.now units.entry.ends.now i) }
{
    state.play(i as u64 + 1, units.unit(i))
}

// Plays the units from the cue on, where the room for what they show is known.
fn play_units(units: Units, cue: usize, shown: &mut [Shown])
    requires { CanPlay units.bytes.now units.ends.now cue (length shown.old) }
    ensures { all_say shown.new ≡ out_after (answer (shown_by cue) (units_at units.entry.bytes.now units.entry.ends.now)) (all_say shown.old) }
{
    let mut state = State::start();
    for i in cue - 1..units.count() {
        shown[i + 1 - cue] = play_at(&mut state, units, i);
    }
}

// The units from the cue to the last, each played under its own position, from eight empty slots and no kept header: what
// each shows to `shown`, and how many these are. A refusal changes nothing.
pub fn play_from(
    units: &[u8],
    unit_ends: &[u32],
    cue: usize,
    shown: &mut [Shown],
) -> Result<usize, Refusal>
    ensures { Fills (λ room. play_from room cue units.now unit_ends.now) result (record {
      entry = all_say shown.old;
      exit = all_say shown.new;
    }) }
{
    check_limit(units)?;
    let listed = Units::new(units, unit_ends)?;
    if cue < 1 || cue > unit_ends.len() {
        return Err(Refusal::NotAList);
    }
    let n = unit_ends.len() - (cue - 1);
    if n > shown.len() {
        return Err(Refusal::NoRoom);
    }
    play_units(listed, cue, shown);
    Ok(n)
}
