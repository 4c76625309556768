// The unit that a list entry names, lent on from where its bytes stand, never copied.
ghost use Rattle.std.specs.Prelude.{◌≡◌, take};
ghost use Rattle.pictures.specs.Assemble.{named};
ghost use Rattle.assemble.specs.Listed.{unit_in};

use crate::multi::{Buffers, Counts};
use obu::reader::{part_in, payload};

// The unit of an entry, segment * 4 + kind: of the picture bytes for a key (0) or a golden (1), of the show bytes for a
// show (2). Empty where the entry names none, or its bytes are not there.
// kept: entries are numbers, which C reads, and the slices stand apart, as document 01 names this function
pub fn unit<'a, 'b>(pictures: &'a [u8], shows: &'a [u8], ends: &'b [u32], entry: u32) -> &'a [u8]
    ensures { result.now ≡ named pictures.now ends.now shows.now entry }
{
    let kind = (entry % 4) as usize;
    let segment = (entry / 4) as usize;
    if kind < 2 {
        let i = 2 * segment + kind;
        return part_in(pictures, ends, i);
    }
    if kind == 2 {
        let from = 5 * segment;
        let to = from + 5;
        return payload(shows, from, to);
    }
    &shows[0..0]
}

// A list's entries, and what assembly handed out for them to name units in.
#[derive(Clone, Copy)]
pub struct UnitList<'a> {
    pub list: &'a [u32],
    pub pictures: &'a [u8],
    pub ends: &'a [u32],
    pub shows: &'a [u8],
}

impl<'a> UnitList<'a> {
    // As much of lent slices as was written to them.
    // kept: the lengths are those that assembly has answered, and it is here that the slices are cut to them
    pub fn made(
        counts: Counts,
        list: &'a [u32],
        pictures: &'a [u8],
        ends: &'a [u32],
        shows: &'a [u8],
    ) -> UnitList<'a>
        ensures list { result.list.now ≡ take counts.units list.now }
        ensures pictures { result.pictures.now ≡ take counts.picture pictures.now }
        ensures ends { result.ends.now ≡ take counts.ends ends.now }
        ensures shows { result.shows.now ≡ take counts.shows shows.now }
    {
        UnitList {
            list: &list[..counts.units.min(list.len())],
            pictures: &pictures[..counts.picture.min(pictures.len())],
            ends: &ends[..counts.ends.min(ends.len())],
            shows: &shows[..counts.shows.min(shows.len())],
        }
    }

    // As much of buffers as was written to them.
    pub fn of(counts: Counts, buffers: &'a Buffers<'_, '_, '_, '_, '_, '_>) -> UnitList<'a>
        ensures list { result.list.now ≡ take counts.units buffers.now.list.now }
        ensures pictures { result.pictures.now ≡ take counts.picture buffers.now.pictures.now }
        ensures ends { result.ends.now ≡ take counts.ends buffers.now.ends.now }
        ensures shows { result.shows.now ≡ take counts.shows buffers.now.shows.now }
    {
        UnitList::made(
            counts,
            buffers.list,
            buffers.pictures,
            buffers.ends,
            buffers.shows,
        )
    }

    // The unit that an entry names.
    pub fn named(self, entry: u32) -> &'a [u8]
        ensures { result.now ≡ unit_in self.entry entry }
    {
        unit(self.pictures, self.shows, self.ends, entry)
    }
}
