// A whole unit, read through to its end or its first refusal: what upper layers ask of it.
ghost use Rattle.std.specs.Prelude.{◌≡◌, false, []};
ghost use Rattle.bitio.specs.Parse.{answer};
ghost use Rattle.bitio.specs.Refusal.{says};
ghost use Rattle.obu.specs.Obu.{obus};
ghost use Rattle.obu.specs.Unit.{is_type, is_kind, count, first_payload, last_payload, located_obus, sought, sought_says, payload_found, stray_in, of_unit};

use crate::obus::Obus;
use crate::reader::{Obu, obu_at};
use bitio::refusal::Refusal;

#[derive(Clone, Copy)]
pub enum Kind {
    Any,
    SequenceHeader,
    TemporalDelimiter,
    // a frame header or a frame
    Frame,
}

// Whether an OBU of type t is of that kind.
#[tactic(auto, unfolding(crate::specs::Unit::is_type))]
pub fn is_type(k: Kind, t: u8) -> bool
    ensures { result ≡ is_type k t }
{
    match k {
        Kind::Any => true,
        Kind::SequenceHeader => t == 1,
        Kind::TemporalDelimiter => t == 2,
        Kind::Frame => t == 3 || t == 6,
    }
}

// How many OBUs of a kind a unit has.
pub fn count_obus(s: &[u8], k: Kind) -> Result<usize, Refusal>
    ensures { says result ≡ answer (count (is_kind k)) (obus s.now) }
{
    let mut n: usize = 0;
    for found in Obus::new(s) {
        if is_type(k, found?.obu_type) {
            n += 1;
        }
    }
    Ok(n)
}

// The first OBU of a kind, or the last, with where it lies; none where the unit has none.
pub fn find_obu(s: &[u8], k: Kind, last: bool) -> Result<Option<Obu>, Refusal>
    ensures { sought_says s.now result ≡ answer (sought last (λ o. is_kind k o.obu)) (located_obus s.now) }
{
    let mut kept: Option<Obu> = None;
    for found in Obus::new(s) {
        let o = found?;
        if (last | kept.is_none()) & is_type(k, o.obu_type) {
            kept = Some(o);
        }
    }
    Ok(kept)
}

// The payload of what was found, as a part of the unit; the empty part where that is none or a refusal.
fn payload_of(s: &[u8], found: Result<Option<Obu>, Refusal>) -> &[u8]
    ensures { result.now ≡ payload_found (sought_says s.now found) }
{
    match found {
        Ok(Some(o)) => o.payload(s),
        _ => &s[..0],
    }
}

// The payload of the first OBU of a kind, as a part of the unit; the empty part where there is none or the unit is refused.
pub fn first_payload(s: &[u8], k: Kind) -> &[u8]
    ensures { result.now ≡ of_unit [] (first_payload (is_kind k)) (obus s.now) }
{
    payload_of(s, find_obu(s, k, false))
}

// The same of the last.
pub fn last_payload(s: &[u8], k: Kind) -> &[u8]
    ensures { result.now ≡ of_unit [] (last_payload (is_kind k)) (obus s.now) }
{
    payload_of(s, find_obu(s, k, true))
}

// Whether a delimiter stands anywhere but first; a refused unit has none.
pub fn has_stray_delimiter(s: &[u8]) -> bool
    ensures { result ≡ of_unit false stray_in (obus s.now) }
{
    let Ok(n) = count_obus(s, Kind::TemporalDelimiter) else {
        return false;
    };
    match obu_at(s, 0) {
        Ok(Some(o)) if is_type(Kind::TemporalDelimiter, o.obu_type) => 2 <= n,
        Ok(Some(_)) => 1 <= n,
        Ok(None) => false,
        Err(_) => false,
    }
}
