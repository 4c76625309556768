// What assembly answers, put into the memory from which it is printed.
ghost use Rattle.std.specs.Prelude.{◌≡◌};
ghost use Rattle.pictures.specs.Assemble.{made};
ghost use Rattle.pictures.specs.Says.{outcome_of};
ghost use Rattle.assemble.specs.Whole.{lent_of};
ghost use Rattle.protocol.specs.Answers.{line, parts_of, parted, with_parts, numbered, with_numbers, Tells};
ghost use Rattle.protocol.specs.Told.{told_in, SameMemory};
ghost use Rattle.replay_lists.specs.Lists.{entry_count, entry_units, kind_fields, numbers_made, handed, slices_marked, accounted_for, assembled_told, handed_told};

use assemble::multi::{Buffers, Counts};
use assemble::unit::UnitList;
use obu::reader::payload;
use pictures::fault::Fault;
use protocol::answer::{Answer, Numbers, done, refused};
use protocol::kinds::{Before, Item, Kind, NUMBER};
use protocol::lent::{BYTE_MARK, END_MARK, is_marked};
use protocol::memory::Memory;

const COMMA: Item = Item {
    before: Before::Comma,
    kind: Kind::Number,
};

const NAMED: Item = Item {
    before: Before::Space,
    kind: Kind::Named,
};

// How much of each lent slice the answer accounts for.
fn accounted(made: Result<Counts, Fault>) -> Counts
    ensures { result ≡ accounted_for (outcome_of made) }
{
    made.unwrap_or_default()
}

// How many entries name a unit, or could.
fn entry_count(counts: Counts) -> u32
    ensures { result ≡ entry_count counts }
{
    (2 * counts.ends.min(0x1_0000)) as u32
}

// Numbers that tell their kinds: that of the first, and that of the others.
fn put_told(first: Item, others: Item, list: &[u32], numbers: &mut Numbers<'_>)
    ensures { Tells numbers.old numbers.new (kind_fields first others list.now) }
{
    let mut item = first;
    for v in list {
        numbers.put_pair(u64::from(item), u64::from(*v));
        item = others;
    }
}

// The six slices that assembly is lent, after the call.
#[derive(Clone, Copy)]
pub(crate) struct Slices<'a> {
    pub units: UnitList<'a>,
    pub cues: &'a [u32],
    pub header: &'a [u8],
}

impl<'a> Slices<'a> {
    pub(crate) fn of(buffers: &'a Buffers<'_, '_, '_, '_, '_, '_>) -> Slices<'a>
        ensures { handed result ≡ lent_of buffers.now }
    {
        Slices {
            units: UnitList {
                list: buffers.list,
                pictures: buffers.pictures,
                ends: buffers.ends,
                shows: buffers.shows,
            },
            cues: buffers.cues,
            header: buffers.header,
        }
    }

    // Whether all behind that is as it was marked.
    #[tactic(auto, unfolding(crate::specs::Lists::slices_marked))]
    fn are_marked(self, counts: Counts) -> bool
        ensures { result ≡ slices_marked counts (handed self.entry) }
    {
        is_marked(self.units.list, counts.units, END_MARK)
            && is_marked(self.cues, counts.cues, END_MARK)
            && is_marked(self.units.ends, counts.ends, END_MARK)
            && is_marked(self.units.pictures, counts.picture, BYTE_MARK)
            && is_marked(self.units.shows, counts.shows, BYTE_MARK)
            && is_marked(self.header, counts.header, BYTE_MARK)
    }

    // The unit of each of the first n entries is the part of that number.
    fn put_units(self, n: u32, memory: &mut [u8], out_ends: &mut [u32]) -> Answer
        ensures { parted (line result) memory.new out_ends.new ≡ with_parts (parted (parts_of 0 0) memory.old out_ends.old) (entry_units self.entry.units.pictures.now self.entry.units.ends.now self.entry.units.shows.now 0 n) }
    {
        let mut answer = done();
        for entry in 0..n {
            answer = answer.part(self.units.named(entry), memory, out_ends);
        }
        answer
    }

    // The numbers over the parts.
    fn put_numbers(self, counts: Counts, parts: Answer, numbers: &mut [u64]) -> Answer
        ensures { numbered (line result) numbers.new ≡ with_numbers (numbered (line parts) numbers.old) (numbers_made counts self.entry.units.list.now self.entry.cues.now) }
    {
        let cues = &self.cues[..counts.cues.min(self.cues.len())];
        let list = &self.units.list[..counts.units.min(self.units.list.len())];
        let mut told = Numbers {
            answer: parts,
            numbers,
        };
        told.put_pair(counts.units as u64, counts.golden_slot);
        told.put(u64::from(entry_count(counts)));
        put_told(NUMBER, COMMA, cues, &mut told);
        put_told(NAMED, NAMED, list, &mut told);
        told.answer
    }

    // The units and the header as parts, and the numbers.
    #[tactic(auto, using(protocol::proofs::AnswerLaws::parts_more), unfolding(crate::specs::Lists::assembled_told))]
    fn put_made(self, counts: Counts, memory: &mut Memory<'_, '_, '_>) -> Answer
        ensures told { told_in (line result) memory.new ≡ assembled_told (made counts) (handed self.entry) memory.old.bytes.now memory.old.ends.now memory.old.numbers.now }
        ensures same { SameMemory memory.old memory.new }
    {
        let units = self.put_units(entry_count(counts), memory.bytes, memory.ends);
        let header = payload(self.header, 0, counts.header);
        let parts = units.part(header, memory.bytes, memory.ends);
        self.put_numbers(counts, parts, memory.numbers)
    }

    #[tactic(auto, unfolding(crate::specs::Lists::assembled_told))]
    fn put_answer(self, made: Result<Counts, Fault>, memory: &mut Memory<'_, '_, '_>) -> Answer
        ensures told { told_in (line result) memory.new ≡ assembled_told (outcome_of made) (handed self.entry) memory.old.bytes.now memory.old.ends.now memory.old.numbers.now }
        ensures same { SameMemory memory.old memory.new }
    {
        match made {
            Ok(counts) => self.put_made(counts, memory),
            Err(fault) => {
                let answer = refused(fault.refusal);
                match fault.segment {
                    Some(i) => answer.number(i as u64, memory.numbers),
                    None => answer,
                }
            }
        }
    }

    // The same, dirty where the call has changed what its answer does not account for.
    pub(crate) fn put_handed(
        self,
        made: Result<Counts, Fault>,
        memory: &mut Memory<'_, '_, '_>,
    ) -> Answer
        ensures told { told_in (line result) memory.new ≡ handed_told (outcome_of made) (handed self.entry) memory.old.bytes.now memory.old.ends.now memory.old.numbers.now }
        ensures same { SameMemory memory.old memory.new }
    {
        let is_clean = self.are_marked(accounted(made));
        Answer {
            is_dirty: !is_clean,
            ..self.put_answer(made, memory)
        }
    }
}
