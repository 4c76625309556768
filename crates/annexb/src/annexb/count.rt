// How many bytes units have in Annex B: the measuring pass of writing.
ghost use Rattle.std.specs.Prelude.{◌≡◌, ◌*◌, ◌≤◌, length};
ghost use mathlib.Core.List.{flat_map};
ghost use Rattle.bitio.specs.Parse.{answer};
ghost use Rattle.bitio.specs.Refusal.{says};
ghost use Rattle.obu.specs.Obu.{obus};
ghost use Rattle.obu.specs.Place.{extension_says};
ghost use Rattle.container.specs.AnnexB.{inner_bytes, annexb_bytes};
ghost use Rattle.bitio.specs.Limits.{limit};
ghost use Rattle.container.specs.Units.{count_of};
ghost use Rattle.container.specs.Lists.{listed};
ghost use Rattle.annexb.specs.code.Join.{AtMost, inner_length, framed_length};

use bitio::leb128::leb128_len;
use bitio::refusal::Refusal;
use container::lists::Units;
use obu::obus::Obus;
use obu::writer::extension_len;

// How many bytes n bytes have with their length before them.
pub(crate) fn framed_len(n: usize) -> usize
    requires { n ≤ 1000000000000 }
    ensures { result ≡ framed_length n }
{
    // most lengths have one byte
    if n < 128 {
        return 1 + n;
    }
    leb128_len(n as u64) + n
}

// How many bytes an OBU with a payload of size bytes has in Annex B, without its length.
pub(crate) fn inner_len(extension: Option<u8>, size: usize) -> usize
    requires { size ≤ limit }
    ensures { result ≡ inner_length (extension_says extension) size }
{
    1 + extension_len(extension) + size
}

// How many bytes the OBUs of a unit have in Annex B: at most twelve for each byte.
pub(crate) fn count_inner(u: &[u8]) -> Result<usize, Refusal>
    requires { length u.now ≤ limit }
    ensures result_value { says result ≡ answer (λ os. length (flat_map inner_bytes os)) (obus u.now) }
    ensures at_most { AtMost (12 * length u.now) (says result) }
{
    let mut n: usize = 0;
    for found in Obus::new(u) {
        let o = found?;
        n += framed_len(inner_len(o.extension, o.size()));
    }
    Ok(n)
}

// How many bytes all units have in Annex B, or the refusal of the first that does not parse.
pub(crate) fn count_units(units: Units) -> Result<usize, Refusal>
    requires { length units.bytes.now ≤ limit }
    ensures { says result ≡ count_of (annexb_bytes (listed units.entry.bytes.now units.entry.ends.now)) }
{
    let mut total: usize = 0;
    for i in 0..units.count() {
        let n = count_inner(units.unit(i))?;
        total += framed_len(framed_len(n));
    }
    Ok(total)
}
