// The sequence header that is kept from unit to unit.
ghost use Rattle.std.specs.Prelude.{◌≡◌};
ghost use Rattle.bitio.specs.Refusal.{says};
ghost use Rattle.player.specs.Values.{header_kept, kept_behind};

use bitio::refusal::Refusal;
use header::seq_header::SequenceObu;
use header::seq_header::check::read_supported;
use obu::obus::Obus;
use obu::unit::{Kind, is_type};

// What is kept of a sequence header.
fn kept_header(payload: &[u8]) -> Result<Option<SequenceObu>, Refusal>
    ensures { says result ≡ header_kept payload.now }
{
    read_supported(payload).map(Some)
}

// A unit's sequence headers in order, each of which is read: the last is kept. What its OBUs are refused for leads.
pub(crate) fn keep_headers(
    kept: Option<SequenceObu>,
    unit: &[u8],
) -> Result<Option<SequenceObu>, Refusal>
    ensures { says result ≡ kept_behind kept unit.now }
{
    let mut last: Result<Option<SequenceObu>, Refusal> = Ok(kept);
    for found in Obus::new(unit) {
        let o = found?;
        if is_type(Kind::SequenceHeader, o.obu_type) {
            last = last.and_then(|_| kept_header(o.payload(unit)));
        }
    }
    last
}
