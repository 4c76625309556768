// Units of Annex B that were measured, in written form into lent memory: the writing pass.
ghost use Rattle.std.specs.Prelude.{◌≡◌};
ghost use Rattle.bitio.specs.Parse.{answer, many, accepted_list};
ghost use Rattle.bitio.specs.Lent.{Wrote};
ghost use Rattle.obu.specs.Obu.{unit_bytes};
ghost use Rattle.container.specs.Stream.{flat};
ghost use Rattle.container.specs.AnnexB.{length_obu, frame_unit};
ghost use Rattle.annexb.specs.code.Fill.{ObusRoom, UnitsRoom, Filled};

use crate::annexb::part::inner_obu;
use crate::annexb::parts::Parts;
use obu::writer::put_measured;

// The OBUs of a frame unit.
fn fill_frame(frame: &[u8], out: &mut [u8], place: usize) -> usize
    requires { ObusRoom (many length_obu frame.now) unit_bytes out.old place }
    ensures { Wrote out.old place (unit_bytes (accepted_list (many length_obu frame.now))) result out.new }
{
    let mut w = place;
    for part in Parts::new(frame) {
        let Ok(o) = inner_obu(part) else { return w };
        w = put_measured(out, w, o.obu_type, o.extension, o.payload);
    }
    w
}

// The OBUs of a unit.
fn fill_unit(unit: &[u8], out: &mut [u8], place: usize) -> usize
    requires { ObusRoom (answer flat (many frame_unit unit.now)) unit_bytes out.old place }
    ensures { Wrote out.old place (unit_bytes (accepted_list (answer flat (many frame_unit unit.now)))) result out.new }
{
    let mut w = place;
    for frame in Parts::new(unit) {
        w = fill_frame(frame, out, w);
    }
    w
}

// All units, and the end of each.
pub(crate) fn fill(data: &[u8], out: &mut [u8], ends: &mut [u32])
    requires { UnitsRoom «data».now out.old ends.old }
    ensures { Filled «data».now out.old ends.old out.new ends.new }
{
    let mut w: usize = 0;
    for (u, unit) in Parts::new(data).enumerate() {
        w = fill_unit(unit, out, w);
        ends[u] = w as u32;
    }
}
