// The way of a list's units: gathered, written in a container, read back, and played. Every buffer is the caller's.
ghost use Rattle.std.specs.Prelude.{◌≡◌, ◌≤◌, length, take};
ghost use Rattle.container.specs.Limits.{bytes_room};
ghost use Rattle.container.specs.Container.{read, write_at};
ghost use Rattle.playback.specs.Lent.{Fills, store, Stores};
ghost use Rattle.playback.specs.Gather.{units_listed};
ghost use Rattle.playback.specs.Shown.{all_say, play_from};
ghost use Rattle.playback.specs.Way.{form_says, play_lent_of, SameWayBuffers, Writes, Carries, Plays};

use crate::gather::gather;
use crate::play::{Shown, play_from};
use annexb::annexb::{split_annexb, write_annexb};
use assemble::unit::UnitList;
use bitio::refusal::Refusal;
use container::stream::{split_obu_stream, write_obu_stream};
use container::units::Sizes;

#[derive(Clone, Copy)]
pub enum Form {
    Stream,
    AnnexB,
}

// kept: what is only read is lent `&mut` too, here and in play_back. Beside a field that is lent `&mut`, `&way.units[..n]` is
// not covered by the borrow checker; by `let units = &mut *way.units;` and `&units[..n]` it is, but then what the field holds
// afterwards is not known, and the proof stays open
impl Form {
    // So many units, written in a container.
    fn write(
        self,
        sizes: Sizes,
        units: &mut [u8],
        unit_ends: &mut [u32],
        out: &mut [u8],
    ) -> Result<usize, Refusal>
        requires bytes { sizes.bytes ≤ length units.old }
        requires units { sizes.units ≤ length unit_ends.old }
        ensures written { Fills (λ n. write_at (form_says self) (bytes_room n) (take sizes.bytes units.old) (take sizes.units unit_ends.old)) result (record {
          entry = out.old;
          exit = out.new;
        }) }
        ensures units { units.new ≡ units.old }
        ensures unit_ends { unit_ends.new ≡ unit_ends.old }
    {
        let units = &units[..sizes.bytes];
        let unit_ends = &unit_ends[..sizes.units];
        match self {
            Form::Stream => write_obu_stream(units, unit_ends, out),
            Form::AnnexB => write_annexb(units, unit_ends, out),
        }
    }

    // The units of so many bytes of a container.
    fn read(
        self,
        count: usize,
        container: &mut [u8],
        out: &mut [u8],
        ends: &mut [u32],
    ) -> Result<Sizes, Refusal>
        requires { count ≤ length container.old }
        ensures stored { Stores (λ room. read (form_says self) room (take count container.old)) result (record {
          entry = store out.old ends.old;
          exit = store out.new ends.new;
        }) }
        ensures container { container.new ≡ container.old }
    {
        let data = &container[..count];
        match self {
            Form::Stream => split_obu_stream(data, out, ends),
            Form::AnnexB => split_annexb(data, out, ends),
        }
    }
}

// So many units, played from the cue to the last.
fn play_back(
    sizes: Sizes,
    cue: usize,
    back: &mut [u8],
    back_ends: &mut [u32],
    shown: &mut [Shown],
) -> Result<usize, Refusal>
    requires bytes { sizes.bytes ≤ length back.old }
    requires units { sizes.units ≤ length back_ends.old }
    ensures played { Fills (λ room. play_from room cue (take sizes.bytes back.old) (take sizes.units back_ends.old)) result (record {
      entry = all_say shown.old;
      exit = all_say shown.new;
    }) }
    ensures back { back.new ≡ back.old }
    ensures back_ends { back_ends.new ≡ back_ends.old }
{
    play_from(&back[..sizes.bytes], &back_ends[..sizes.units], cue, shown)
}

// The memory of the way, each slice the caller's: the units and their ends, the container that they are written in, the
// units read back, and what each position shows.
#[derive(Drop)]
pub struct WayBuffers<'a, 'b, 'c, 'd, 'e, 'f> {
    pub units: &'a mut [u8],
    pub unit_ends: &'b mut [u32],
    pub out: &'c mut [u8],
    pub back: &'d mut [u8],
    pub back_ends: &'e mut [u32],
    pub shown: &'f mut [Shown],
}

// The units that the list's entries name, gathered and then written in a container.
pub fn write_list(
    form: Form,
    listed: UnitList,
    way: &mut WayBuffers<'_, '_, '_, '_, '_, '_>,
) -> Result<usize, Refusal>
    ensures written { Writes (form_says form) (units_listed listed.entry) result (record {
      entry = (play_lent_of way.old).carried.written;
      exit = (play_lent_of way.new).carried.written;
    }) }
    ensures back { way.new.back.now ≡ way.old.back.now }
    ensures back_ends { way.new.back_ends.now ≡ way.old.back_ends.now }
    ensures shown { way.new.shown.now ≡ way.old.shown.now }
    ensures same { SameWayBuffers way.old way.new }
{
    let gathered = gather(listed, way.units, way.unit_ends)?;
    form.write(gathered, way.units, way.unit_ends, way.out)
}

// And read back.
pub fn carry_list(
    form: Form,
    listed: UnitList,
    way: &mut WayBuffers<'_, '_, '_, '_, '_, '_>,
) -> Result<Sizes, Refusal>
    ensures carried { Carries (form_says form) (units_listed listed.entry) result (record {
      entry = (play_lent_of way.old).carried;
      exit = (play_lent_of way.new).carried;
    }) }
    ensures shown { way.new.shown.now ≡ way.old.shown.now }
    ensures same { SameWayBuffers way.old way.new }
{
    let written = write_list(form, listed, way)?;
    form.read(written, way.out, way.back, way.back_ends)
}

// And played from the cue to the last.
pub fn play_list(
    form: Form,
    listed: UnitList,
    cue: usize,
    way: &mut WayBuffers<'_, '_, '_, '_, '_, '_>,
) -> Result<usize, Refusal>
    ensures played { Plays (form_says form) (units_listed listed.entry) cue result (record {
      entry = play_lent_of way.old;
      exit = play_lent_of way.new;
    }) }
    ensures same { SameWayBuffers way.old way.new }
{
    let carried = carry_list(form, listed, way)?;
    play_back(carried, cue, way.back, way.back_ends, way.shown)
}
