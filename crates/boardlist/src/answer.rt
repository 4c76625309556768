// The text that boardlist prints for any bytes, made in lent memory.
ghost use Rattle.bitio.specs.Lent.{span};
ghost use Rattle.blocks.specs.Numbers.{first_records};
ghost use Rattle.assemble.specs.Whole.{outcome};
ghost use Rattle.listing.specs.File.{LayoutFits};
ghost use Rattle.boardlist.specs.Printed.{lent_of, made_text, Texted, Prints, Answers};

use assemble::multi::{Buffers, Counts, assemble_multi};
use assemble::unit::UnitList;
use bitio::refusal::Refusal;
use blocks::numbers::{Segments, WIDTH};
use listing::file::{Layout, read_file};
use listing::memory::{COUNT, ListMemory};
use listing::text::{put_fault, put_listing, put_unread};

// What is lent to assembly: the segments' numbers, and where it hands out.
#[derive(Drop)]
pub(crate) struct Memory {
    numbers: [u64; WIDTH * COUNT],
    made: ListMemory,
}

impl Memory {
    pub(crate) fn new() -> Memory {
        Memory {
            numbers: [0; WIDTH * COUNT],
            made: ListMemory::new(),
        }
    }

    // The listing of what was made.
    fn put_made(&self, counts: Counts, out: &mut [u8]) -> Result<usize, Refusal>
        ensures { Texted (made_text counts (lent_of self.now)) result (record { entry = out.old; exit = out.new }) }
    {
        let made = &self.made;
        let units = UnitList::made(counts, &made.list, &made.pictures, &made.ends, &made.shows);
        put_listing(out, counts.cues, units)
    }

    // The text of a file's segments, whose numbers stand here, assembled or refused.
    fn put_assembly(
        &mut self,
        file: &[u8],
        layout: Layout,
        out: &mut [u8],
    ) -> Result<usize, Refusal>
        requires { LayoutFits layout file.now self.old.numbers }
        ensures { Prints (outcome (span file.now layout.start layout.end) (first_records layout.segments self.old.numbers) layout.settings) result (record { entry = out.old; exit = out.new }) (record { entry = self.old; exit = self.new }) }
    {
        let mut buffers = Buffers {
            list: &mut self.made.list,
            cues: &mut self.made.cues,
            pictures: &mut self.made.pictures,
            ends: &mut self.made.ends,
            shows: &mut self.made.shows,
            header: &mut self.made.header,
        };
        let segments = Segments {
            picture: layout.picture(file),
            numbers: layout.numbers(&self.numbers),
        };
        let made = assemble_multi(segments, layout.settings, &mut buffers);
        match made {
            Ok(counts) => self.put_made(counts, out),
            Err(fault) => put_fault(out, fault),
        }
    }

    // The text for any bytes, or nothing where it has no room.
    pub(crate) fn answer(&mut self, file: &[u8], out: &mut [u8]) -> Result<usize, Refusal>
        ensures { Answers file.now result (record { entry = out.old; exit = out.new }) (record { entry = self.old; exit = self.new }) }
    {
        match read_file(file, &mut self.numbers) {
            Ok(layout) => self.put_assembly(file, layout, out),
            Err(unread) => put_unread(out, unread),
        }
    }
}
