// Runs of packets: how many bytes their OBUs have, written one behind the other, and the writing.
ghost use Rattle.std.specs.Prelude.{◌≡◌, length};
ghost use Rattle.std.proofs.Math.Seq.{slice};
ghost use Rattle.bitio.specs.Lent.{Wrote};
ghost use Rattle.bitio.specs.Limits.{capped};
ghost use Rattle.container.specs.code.Ranges.{kept_bytes, Range};
ghost use Rattle.container.specs.Lists.{listed};
ghost use Rattle.packets.specs.code.PacketRuns.{all_parsed, lead_of, Run, RunRoom};

use crate::packets::lists::Packets;
use container::ranges::{put_written, written_len};
use obu::reader::obu_at;
use obu::unit::{Kind, is_type};

// Where the delimiter at the head of a packet ends, 0 if there is none.
// kept: 0 stands for none, since what is measured and written is the range from 0 to there, which then is empty
pub(crate) fn lead_end(s: &[u8]) -> usize
    ensures { Range s.now 0 result (lead_of s.now) }
{
    match obu_at(s, 0) {
        Ok(Some(o)) if is_type(Kind::TemporalDelimiter, o.obu_type) => o.end,
        _ => 0,
    }
}

impl<'a> Packets<'a> {
    // How many bytes the OBUs of the packets from a to b have, written.
    pub(crate) fn run_len(self, a: usize, b: usize, keep: bool) -> usize
        requires { Run self.units.bytes.now self.units.ends.now a b }
        ensures { result ≡ capped (length (kept_bytes keep (all_parsed (slice a b (listed self.entry.units.bytes.now self.entry.units.ends.now))))) }
    {
        let mut n: usize = 0;
        for i in a..b {
            let u = self.units.unit(i);
            n = n.saturating_add(written_len(u, 0..u.len(), keep));
        }
        n
    }

    // Writes them at `to`, where their room is known.
    pub(crate) fn put_run(self, a: usize, b: usize, keep: bool, out: &mut [u8], to: usize) -> usize
        requires { RunRoom self.units.bytes.now self.units.ends.now a b keep out.old to }
        ensures { Wrote out.old to (kept_bytes keep (all_parsed (slice a b (listed self.entry.units.bytes.now self.entry.units.ends.now)))) result out.new }
    {
        let mut w = to;
        for i in a..b {
            let u = self.units.unit(i);
            w = put_written(u, 0..u.len(), keep, out, w);
        }
        w
    }
}
