// A stream read through once: whether it is refused, its frames, and what its OBUs come to in written form.
ghost use Rattle.std.specs.Prelude.{◌≡◌, ◌≤◌, length};
ghost use Rattle.bitio.specs.Limits.{limit};
ghost use Rattle.bitio.specs.Parse.{answer};
ghost use Rattle.bitio.specs.Refusal.{says};
ghost use Rattle.obu.specs.Obu.{obus};
ghost use Rattle.container.specs.code.Survey.{tally_of};

use crate::ranges::kept_len;
use bitio::refusal::Refusal;
use obu::obus::Obus;
use obu::unit::{Kind, is_type};

// How many frames there are, and how many bytes all OBUs have, written.
#[derive(Clone, Copy)]
pub(crate) struct Tally {
    pub(crate) frames: usize,
    pub(crate) bytes: usize,
}

// All OBUs of a stream.
pub(crate) fn survey(s: &[u8]) -> Result<Tally, Refusal>
    requires { length s.now ≤ limit }
    ensures { says result ≡ answer tally_of (obus s.now) }
{
    let mut frames: usize = 0;
    let mut bytes: usize = 0;
    for found in Obus::new(s) {
        let o = found?;
        if is_type(Kind::Frame, o.obu_type) {
            frames += 1;
        }
        bytes += kept_len(o, true);
    }
    Ok(Tally { frames, bytes })
}
