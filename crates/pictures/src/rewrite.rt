// A unit as it goes out: copied, or, where timing is absent, with its sequence headers replaced.
ghost use Rattle.std.specs.Prelude.{◌≡◌, true, ◌+◌, ◌≤◌, length};
ghost use Rattle.bitio.specs.Parse.{accepted, answer};
ghost use Rattle.bitio.specs.Lent.{pasted};
ghost use Rattle.bitio.specs.Limits.{capped};
ghost use Rattle.bitio.specs.Refusal.{says};
ghost use Rattle.obu.specs.Obu.{obus};
ghost use Rattle.pictures.specs.Prepare.{renewed};
ghost use Rattle.pictures.specs.Flat.{lent, readable, sent_bytes};
ghost use Rattle.pictures.specs.code.Rewrite.{obu_in, renewed_bytes, rewritten};

use bitio::refusal::Refusal;
use obu::obus::Obus;
use obu::reader::Obu;
use obu::unit::{Kind, count_obus, is_type};
use obu::writer::{obu_len, put_bytes, put_measured};

// The payload of an OBU as it goes out.
fn renewed_payload<'a>(unit: &'a [u8], new: &'a [u8], o: Obu) -> &'a [u8]
    ensures { result.now ≡ (renewed new.now (obu_in unit.now o)).payload }
{
    if is_type(Kind::SequenceHeader, o.obu_type) {
        new
    } else {
        o.payload(unit)
    }
}

// How many bytes a rewritten unit has, as far as a usize counts them.
fn rewritten_len(unit: &[u8], new: &[u8]) -> Result<usize, Refusal>
    ensures { says result ≡ answer (λ os. capped (length (renewed_bytes new.now os))) (obus unit.now) }
{
    let mut n: usize = 0;
    for found in Obus::new(unit) {
        let o = found?;
        n = n.saturating_add(obu_len(o.extension, renewed_payload(unit, new, o).len()));
    }
    Ok(n)
}

// How many bytes a unit has as it goes out, as far as a usize counts them; one that is refused has none.
pub fn sent_len(unit: &[u8], renewal: Option<&[u8]>) -> usize
    ensures { result ≡ capped (length (sent_bytes (lent renewal.entry) unit.now)) }
{
    let Some(new) = renewal else {
        return unit.len();
    };
    match count_obus(unit, Kind::SequenceHeader) {
        Err(_) => 0,
        Ok(0) => unit.len(),
        Ok(_) => rewritten_len(unit, new).unwrap_or(0),
    }
}

// Writes a rewritten unit, where its room is known.
fn put_rewritten(out: &mut [u8], at: usize, unit: &[u8], new: &[u8]) -> usize
    requires reads { readable true unit.now ≡ accepted tt }
    requires room { at + length (rewritten new.now unit.now) ≤ length out.old }
    ensures { (result ≡ at + length (rewritten new.now unit.now)) × (out.new ≡ pasted out.old at (rewritten new.now unit.now)) }
{
    let mut to = at;
    for found in Obus::new(unit) {
        let o = found.unwrap();
        let payload = renewed_payload(unit, new, o);
        to = put_measured(out, to, o.obu_type, o.extension, payload);
    }
    to
}

// Writes a unit as it goes out, where its room is known, and returns the place behind it.
pub fn put_sent(out: &mut [u8], at: usize, unit: &[u8], renewal: Option<&[u8]>) -> usize
    requires { at + length (sent_bytes (lent renewal) unit.now) ≤ length out.old }
    ensures { (result ≡ at + length (sent_bytes (lent renewal.entry) unit.now)) × (out.new ≡ pasted out.old at (sent_bytes (lent renewal.entry) unit.now)) }
{
    let Some(new) = renewal else {
        return put_bytes(out, at, unit);
    };
    match count_obus(unit, Kind::SequenceHeader) {
        Err(_) => at,
        Ok(0) => put_bytes(out, at, unit),
        Ok(_) => put_rewritten(out, at, unit, new),
    }
}
