// The sequence headers of later keys: the last of each is the list's.
ghost use Rattle.std.specs.Prelude.{◌≡◌};
ghost use Rattle.bitio.specs.Parse.{and_next};
ghost use Rattle.bitio.specs.Refusal.{says};
ghost use Rattle.obu.specs.Obu.{obus};
ghost use Rattle.pictures.specs.Assemble.{same_header, same_headers};
ghost use Rattle.pictures.specs.Flat.{later_segments};
ghost use Rattle.pictures.specs.Says.{outcome_of};

use crate::fault::{Fault, in_segment};
use bitio::refusal::Refusal;
use blocks::numbers::{Segments, segment_count};
use obu::unit::{Kind, count_obus, last_payload};

// The last sequence header of a key has the payload `first`: 1 to 5, 27.
fn check_same(unit: &[u8], first: &[u8]) -> Result<(), Refusal>
    ensures { says result ≡ and_next (obus unit.now) (λ os. same_header first.now os) }
{
    let n = count_obus(unit, Kind::SequenceHeader)?;
    if n == 0 || last_payload(unit, Kind::SequenceHeader) != first {
        return Err(Refusal::OtherSequenceHeader);
    }
    Ok(())
}

// 1 to 5 and 27, of all keys but the first.
pub fn same_headers(segments: Segments, first: &[u8]) -> Result<(), Fault>
    ensures { outcome_of result ≡ same_headers first.now 1 (later_segments segments.entry.picture.now segments.entry.numbers.now) }
{
    for i in 1..segment_count(segments.numbers) {
        in_segment(check_same(segments.key(i), first), i)?;
    }
    Ok(())
}
