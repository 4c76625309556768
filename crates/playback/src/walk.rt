// The whole way for one list at run time: assembled, gathered, written in a container, read back, and played from a cue.
ghost use Rattle.assemble.specs.Whole.{outcome, lent_of, SameBuffers};
ghost use Rattle.playback.specs.Way.{form_says, play_lent_of, SameWayBuffers};
ghost use Rattle.playback.specs.Walk.{Walks};

use crate::way::{Form, WayBuffers, play_list};
use assemble::multi::{Buffers, assemble_multi};
use assemble::unit::UnitList;
use blocks::numbers::Segments;
use pictures::fault::Fault;
use pictures::settings::Settings;

// How many positions have been played. Every buffer is the caller's; what a refusal leaves in them is what the steps
// before it wrote.
pub fn walk(
    form: Form,
    segments: Segments<'_, '_>,
    settings: Settings,
    cue: usize,
    buffers: &mut Buffers<'_, '_, '_, '_, '_, '_>,
    way: &mut WayBuffers<'_, '_, '_, '_, '_, '_>,
) -> Result<usize, Fault>
    ensures walked { Walks (form_says form) cue (outcome segments.entry.picture.now segments.entry.numbers.now settings) result (record {
      entry = lent_of buffers.old;
      exit = lent_of buffers.new;
    }) (record {
      entry = play_lent_of way.old;
      exit = play_lent_of way.new;
    }) }
    ensures same_buffers { SameBuffers buffers.old buffers.new }
    ensures same_way { SameWayBuffers way.old way.new }
{
    let made = assemble_multi(segments, settings, buffers)?;
    Ok(play_list(form, UnitList::of(made, buffers), cue, way)?)
}
