// Packets by their index.
ghost use Rattle.std.specs.Prelude.{◌≡◌, length};
ghost use Rattle.container.specs.Lists.{listed};
ghost use Rattle.packets.specs.code.PacketRuns.{closes as closesUnit, next_close, first_full};

use container::lists::Units;
use obu::unit::{Kind, count_obus};

// Packets in lent memory, and the time of each.
#[derive(Clone, Copy)]
pub(crate) struct Packets<'a> {
    pub(crate) units: Units<'a>,
    pub(crate) times: &'a [u64],
}

// Whether a packet does not parse or has a frame.
fn closes(s: &[u8]) -> bool
    ensures { result ≡ closesUnit s.now }
{
    match count_obus(s, Kind::Frame) {
        Ok(n) => n >= 1,
        Err(_) => true,
    }
}

impl<'a> Packets<'a> {
    // The next packet that closes, from a on.
    pub(crate) fn next_close(self, a: usize) -> Option<usize>
        ensures { result ≡ next_close (listed self.entry.units.bytes.now self.entry.units.ends.now) a (length self.entry.units.ends.now) }
    {
        (a..self.units.count()).find(|i| closes(self.units.unit(*i)))
    }

    // The first packet with bytes of those from a to b.
    pub(crate) fn first_full(self, a: usize, b: usize) -> Option<usize>
        ensures { result ≡ first_full (listed self.entry.units.bytes.now self.entry.units.ends.now) a b }
    {
        (a..b).find(|i| !self.units.unit(*i).is_empty())
    }
}
