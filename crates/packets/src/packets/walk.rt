// The output packets in order, by the packets that go into each.
ghost use Rattle.std.specs.Prelude.{◌≡◌, ◌+◌, ◌<◌, Some};
ghost use Rattle.packets.specs.code.PacketRuns.{stop_of};

use crate::packets::lists::Packets;

// The packets from `first` to `stop`, of which the one at `close` closes.
#[derive(Clone, Copy)]
pub(crate) struct Place {
    pub(crate) first: usize,
    pub(crate) close: usize,
    pub(crate) stop: usize,
}

// The output packets from `first` on, the next of which closes at `close`; none is left if there is no such packet.
#[derive(Clone, Copy)]
pub(crate) struct Pieces<'a> {
    packets: Packets<'a>,
    first: usize,
    close: Option<usize>,
}

// Where an output packet ends whose packet at c closes: behind it, or at the end if no other closes.
fn stop_at(c: usize, next: Option<usize>, n: usize) -> usize
    requires { c < n }
    ensures { result ≡ stop_of next (c + 1) n }
{
    match next {
        Some(_) => c + 1,
        None => n,
    }
}

impl<'a> Pieces<'a> {
    ghost use Rattle.packets.specs.code.Walk.{Walks};

    // All output packets, c being the first packet that closes.
    pub(crate) fn new(packets: Packets<'a>, c: usize) -> Pieces<'a>
        ensures { Walks result packets.entry 0 (Some c) }
    {
        Pieces {
            packets,
            first: 0,
            close: Some(c),
        }
    }
}

impl<'a> Iterator for Pieces<'a> {
    ghost use Rattle.packets.specs.code.Walk.{CanGive, GivesPlace, packets_left};

    type Item = Place;

    ghost can_next = { CanGive };

    ghost next_gives = { GivesPlace };

    ghost remaining = { packets_left };

    fn next(&mut self) -> Option<Place> {
        let close = self.close?;
        let next = self.packets.next_close(close + 1);
        let place = Place {
            first: self.first,
            close,
            stop: stop_at(close, next, self.packets.times.len()),
        };
        self.first = place.stop;
        self.close = next;
        Some(place)
    }
}
