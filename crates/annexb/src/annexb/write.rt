// Units that were measured, as Annex B into lent memory: the writing pass of writing.
ghost use Rattle.std.specs.Prelude.{◌≡◌, true, ◌+◌, ◌≤◌, length};
ghost use mathlib.Core.List.{flat_map};
ghost use Rattle.obu.specs.Obu.{obus, passes};
ghost use Rattle.obu.specs.Place.{extension_says, part};
ghost use Rattle.obu.specs.Write.{obu};
ghost use Rattle.container.specs.AnnexB.{inner_bytes, annexb_unit, annexb_bytes};
ghost use Rattle.bitio.specs.Limits.{limit};
ghost use Rattle.container.specs.Lists.{listed};
ghost use Rattle.container.specs.Units.{out_after};
ghost use Rattle.bitio.specs.Parse.{accepted_list};
ghost use Rattle.bitio.specs.Lent.{Wrote};
ghost use Rattle.annexb.specs.code.Fill.{ObusRoom};
ghost use Rattle.annexb.specs.code.Join.{inner_length, framed_length, AnnexbRoom};

use crate::annexb::count::{count_inner, framed_len, inner_len};
use bitio::leb128::put_leb128;
use container::lists::Units;
use obu::obus::Obus;
use obu::reader::Obu;
use obu::writer::{put_bytes, put_header};

// One OBU of u with its length at w.
fn put_length_obu(u: &[u8], o: Obu, out: &mut [u8], w: usize) -> usize
    requires u_len_bound { length u.now ≤ limit }
    requires obu_type_value { (passes o.obu_type ≡ true) × (w + framed_length (inner_length (extension_says o.extension) (length (part u.now o.start o.end))) ≤ length out.old) }
    ensures { Wrote out.old w (inner_bytes (obu o.obu_type (extension_says o.extension) (part u.now o.start o.end))) result out.new }
{
    let payload = o.payload(u);
    let p = put_leb128(out, w, inner_len(o.extension, payload.len()) as u64);
    let q = put_header(out, p, o.obu_type, o.extension, 0);
    put_bytes(out, q, payload)
}

// The OBUs of a unit.
fn put_inner_obus(u: &[u8], out: &mut [u8], place: usize) -> usize
    requires u_len_bound { length u.now ≤ limit }
    requires obus_room { ObusRoom (obus u.now) (flat_map inner_bytes) out.old place }
    ensures { Wrote out.old place (flat_map inner_bytes (accepted_list (obus u.now))) result out.new }
{
    let mut w = place;
    for found in Obus::new(u) {
        let Ok(o) = found else { return w };
        w = put_length_obu(u, o, out, w);
    }
    w
}

// A unit: its OBUs in one frame unit.
fn put_unit(u: &[u8], out: &mut [u8], w: usize) -> usize
    requires u_len_bound { length u.now ≤ limit }
    requires obus_room { ObusRoom (obus u.now) annexb_unit out.old w }
    ensures { Wrote out.old w (annexb_unit (accepted_list (obus u.now))) result out.new }
{
    let Ok(n) = count_inner(u) else {
        return w;
    };
    let p = put_leb128(out, w, framed_len(n) as u64);
    let q = put_leb128(out, p, n as u64);
    put_inner_obus(u, out, q)
}

// All units.
pub(crate) fn put_units(units: Units, out: &mut [u8])
    requires units_len_bound { length units.bytes.now ≤ limit }
    requires annexb_room { AnnexbRoom (listed units.bytes.now units.ends.now) out.old }
    ensures { out.new ≡ out_after (annexb_bytes (listed units.entry.bytes.now units.entry.ends.now)) out.old }
{
    let mut w: usize = 0;
    for i in 0..units.count() {
        w = put_unit(units.unit(i), out, w);
    }
}
