// A unit with the delimiters behind its first place dropped.
ghost use Rattle.std.specs.Prelude.{◌≡◌, true, false, ◌≤◌, length};
ghost use Rattle.bitio.specs.Refusal.{says};
ghost use Rattle.obu.specs.Obu.{obus};
ghost use Rattle.obu.specs.Unit.{stray_in, of_unit};
ghost use Rattle.bitio.specs.Limits.{limit};
ghost use Rattle.container.specs.Limits.{bytes_room};
ghost use Rattle.container.specs.Units.{count_of, out_after};
ghost use Rattle.packets.specs.Packets.{canonical_at};
ghost use Rattle.packets.specs.code.Canonical.{Clean};

use bitio::refusal::Refusal;
use container::extents::obu_end;
use container::ranges::{put_written, written_len};
use container::units::have_room;
use obu::writer::put_bytes;

// The unit as it is, if it has room.
pub(crate) fn copy_unit(unit: &[u8], out: &mut [u8]) -> Result<usize, Refusal>
    requires { Clean unit.now }
    ensures answer { says result ≡ count_of (canonical_at (bytes_room (length out.old)) unit.now) }
    ensures out { out.new ≡ out_after (canonical_at (bytes_room (length out.old)) unit.now) out.old }
{
    if unit.len() > out.len() {
        return Err(Refusal::NoRoom);
    }
    Ok(put_bytes(out, 0, unit))
}

// The unit written anew, if it has room.
pub(crate) fn clean_unit(unit: &[u8], out: &mut [u8]) -> Result<usize, Refusal>
    requires { (length unit.now ≤ limit) × (of_unit false stray_in (obus unit.now) ≡ true) }
    ensures answer { says result ≡ count_of (canonical_at (bytes_room (length out.old)) unit.now) }
    ensures out { out.new ≡ out_after (canonical_at (bytes_room (length out.old)) unit.now) out.old }
{
    let mid = obu_end(unit, 0);
    let end = unit.len();
    let first = written_len(unit, 0..mid, true);
    let len = first.saturating_add(written_len(unit, mid..end, false));
    if !have_room(len, out) {
        return Err(Refusal::NoRoom);
    }
    let next = put_written(unit, 0..mid, true, out, 0);
    Ok(put_written(unit, mid..end, false, out, next))
}
