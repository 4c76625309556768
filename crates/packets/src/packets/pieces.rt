// One output packet: the packets that wait, the one that closes, and those behind it.
ghost use Rattle.std.specs.Prelude.{◌≡◌, length};
ghost use Rattle.bitio.specs.Lent.{Wrote};
ghost use Rattle.bitio.specs.Limits.{capped};
ghost use Rattle.container.specs.Lists.{listed};
ghost use Rattle.packets.specs.code.PacketRuns.{piece, parses_unit, Run, HeadAt, LeadAt, Piece, Joins, PieceRoom, JoinsRoom};

use crate::packets::lists::Packets;
use crate::packets::runs::lead_end;
use crate::packets::walk::Place;
use container::ranges::{put_written, written_len};
use obu::unit::{Kind, count_obus};
use obu::writer::put_bytes;

fn parses(s: &[u8]) -> bool
    ensures { result ≡ parses_unit s.now }
{
    count_obus(s, Kind::Any).is_ok()
}

impl<'a> Packets<'a> {
    // The first packet with bytes of the run from a to b; empty if there is none.
    fn head_of(self, a: usize, b: usize) -> &'a [u8]
        requires { Run self.units.bytes.now self.units.ends.now a b }
        ensures { HeadAt self.entry.units.bytes.now self.entry.units.ends.now a b result.now }
    {
        match self.first_full(a, b) {
            Some(i) => self.units.unit(i),
            None => &[],
        }
    }

    // The packet at whose head the delimiter stands that moves to the front, if there is one.
    fn lead_of(self, place: Place) -> &'a [u8]
        requires { Joins self.units.bytes.now self.units.ends.now place.first place.close place.stop }
        ensures { LeadAt self.entry.units.bytes.now self.entry.units.ends.now place.first place.close place.stop result.now }
    {
        let head = self.head_of(place.first, place.close);
        if lead_end(head) > 0 {
            return head;
        }
        let closing = self.units.unit(place.close);
        if lead_end(closing) > 0 {
            return closing;
        }
        self.head_of(place.close + 1, place.stop)
    }

    // How many bytes the output packet has, where the one that closes parses.
    fn joined_len(self, place: Place) -> usize
        requires { Joins self.units.bytes.now self.units.ends.now place.first place.close place.stop }
        ensures { result ≡ capped (length (piece (listed self.entry.units.bytes.now self.entry.units.ends.now) place.first place.close place.stop)) }
    {
        let u = self.lead_of(place);
        let head = written_len(u, 0..lead_end(u), true);
        head.saturating_add(self.run_len(place.first, place.stop, false))
    }

    // How many bytes the output packet has.
    pub(crate) fn piece_len(self, place: Place) -> usize
        requires { Piece self.units.bytes.now self.units.ends.now place.first place.close place.stop }
        ensures { result ≡ capped (length (piece (listed self.entry.units.bytes.now self.entry.units.ends.now) place.first place.close place.stop)) }
    {
        let u = self.units.unit(place.close);
        if parses(u) {
            return self.joined_len(place);
        }
        let front = self
            .run_len(place.first, place.close, true)
            .saturating_add(u.len());
        front.saturating_add(self.run_len(place.close + 1, place.stop, true))
    }

    // Writes the output packet at `to`, where the one that closes parses and the room is known.
    fn put_joined(self, place: Place, out: &mut [u8], to: usize) -> usize
        requires { JoinsRoom self.units.bytes.now self.units.ends.now place.first place.close place.stop out.old to }
        ensures { Wrote out.old to (piece (listed self.entry.units.bytes.now self.entry.units.ends.now) place.first place.close place.stop) result out.new }
    {
        let u = self.lead_of(place);
        let next = put_written(u, 0..lead_end(u), true, out, to);
        self.put_run(place.first, place.stop, false, out, next)
    }

    // Writes the output packet at `to`, where its room is known.
    pub(crate) fn put_piece(self, place: Place, out: &mut [u8], to: usize) -> usize
        requires { PieceRoom self.units.bytes.now self.units.ends.now place.first place.close place.stop out.old to }
        ensures { Wrote out.old to (piece (listed self.entry.units.bytes.now self.entry.units.ends.now) place.first place.close place.stop) result out.new }
    {
        let u = self.units.unit(place.close);
        if parses(u) {
            return self.put_joined(place, out, to);
        }
        let mid = self.put_run(place.first, place.close, true, out, to);
        let next = put_bytes(out, mid, u);
        self.put_run(place.close + 1, place.stop, true, out, next)
    }
}
