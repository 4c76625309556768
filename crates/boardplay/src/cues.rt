// A list played from each of its cues, in the stream and in Annex B.
use crate::text::{Page, put_fault, put_shown};
use assemble::multi::Buffers;
use blocks::numbers::Segments;
use listing::memory::{BYTES, COUNT, ListMemory};
use pictures::fault::Fault;
use pictures::settings::Settings;
use playback::play::Shown;
use playback::way::{Form, WayBuffers};

// Room for so many bytes of the units, and of their container: picture bytes, show units and headers.
const WHOLE: usize = 4 * BYTES;

// What is made a list of and played.
#[derive(Drop)]
pub(crate) struct Boards<'a> {
    pub(crate) picture: &'a [u8],
    pub(crate) segments: &'a [u64],
    pub(crate) settings: Settings,
}

// The memory that the way takes.
#[derive(Drop)]
struct Memory {
    made: ListMemory,
    units: [u8; WHOLE],
    unit_ends: [u32; COUNT],
    out: [u8; WHOLE],
    back: [u8; WHOLE],
    back_ends: [u32; COUNT],
    shown: [Shown; COUNT],
}

impl Memory {
    fn new() -> Memory {
        Memory {
            made: ListMemory::new(),
            units: [0; WHOLE],
            unit_ends: [0; COUNT],
            out: [0; WHOLE],
            back: [0; WHOLE],
            back_ends: [0; COUNT],
            shown: [Ok(None); COUNT],
        }
    }

    // Cue i of the list, from 0. The first is always 1; behind the first walk the others stand in their slice.
    // kept: the new form is no plainer: a walk answers with what it played, and an answer with the count of cues beside it is one
    // for this program alone; what assembly has not written is 0, which no cue is
    fn cue(&self, i: usize) -> Option<u32> {
        if i == 0 {
            return Some(1);
        }
        let cue = *self.made.cues.get(i)?;
        (cue != 0).then_some(cue)
    }

    // The whole way from a cue.
    fn walk(&mut self, form: Form, boards: &Boards, cue: u32) -> Result<usize, Fault> {
        let mut buffers = Buffers {
            list: &mut self.made.list,
            cues: &mut self.made.cues,
            pictures: &mut self.made.pictures,
            ends: &mut self.made.ends,
            shows: &mut self.made.shows,
            header: &mut self.made.header,
        };
        let mut way = WayBuffers {
            units: &mut self.units,
            unit_ends: &mut self.unit_ends,
            out: &mut self.out,
            back: &mut self.back,
            back_ends: &mut self.back_ends,
            shown: &mut self.shown,
        };
        let segments = Segments {
            picture: boards.picture,
            numbers: boards.segments,
        };
        playback::walk::walk(
            form,
            segments,
            boards.settings,
            cue as usize,
            &mut buffers,
            &mut way,
        )
    }
}

// Walks the whole way for each cue, and prints what each position shows or the first refusal.
pub(crate) fn play(boards: &Boards, page: &mut Page) {
    let mut memory = Memory::new();
    for i in 0..memory.made.cues.len() {
        let Some(cue) = memory.cue(i) else {
            return;
        };
        for form in [Form::Stream, Form::AnnexB] {
            match memory.walk(form, boards, cue) {
                Ok(n) => put_shown(page, cue, form, &memory.shown[..n.min(memory.shown.len())]),
                Err(fault) => return put_fault(page, fault),
            }
        }
    }
}
