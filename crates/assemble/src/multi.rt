// Assembly (assemble_multi, decoder_model false): segments in, the unit list and the cue list out.
ghost use Rattle.std.specs.Prelude.{◌≡◌, ◌≤◌, length, Err};
ghost use Rattle.bitio.specs.Lent.{pasted};
ghost use Rattle.bitio.specs.Limits.{capped};
ghost use Rattle.header.specs.Sequence.{sequence_in};
ghost use Rattle.blocks.specs.Blocks.{total};
ghost use Rattle.blocks.specs.Numbers.{head_key, head_golden, frames_in};
ghost use Rattle.pictures.specs.Says.{outcome_of};
ghost use Rattle.pictures.specs.Flat.{judged, answer_or, rewriting};
ghost use Rattle.assemble.specs.code.Stages.{renewal_in, header_in, needed, fits_in};
ghost use Rattle.assemble.specs.Whole.{outcome, output_room, lent_of, SameBuffers, assembled_code, Handed};

use crate::headers::Headers;
use crate::nonempty::NonEmpty;
use crate::plan::{Plan, plan_multi};
use bitio::limits::LIMIT;
use bitio::refusal::Refusal;
use blocks::blocks::{count_cues, put_list};
use blocks::numbers::{Segments, segment_count};
use obu::writer::{obu_len, put_measured};
use pictures::fault::Fault;
use pictures::pictures::{put_pictures, put_shows, slot_or_zero};
use pictures::settings::Settings;
use pictures::sizes::total_frames;

// How much was written to each lent slice, and the first golden slot. The default is that of a refusal, which writes nothing.
#[derive(Clone, Copy, Default)]
pub struct Counts {
    pub units: usize,
    pub cues: usize,
    pub picture: usize,
    pub ends: usize,
    pub shows: usize,
    pub header: usize,
    pub golden_slot: u64,
}

// The memory that assembly hands out in, each slice the caller's.
#[derive(Drop)]
pub struct Buffers<'a, 'b, 'c, 'd, 'e, 'f> {
    pub list: &'a mut [u32],
    pub cues: &'b mut [u32],
    pub pictures: &'c mut [u8],
    pub ends: &'d mut [u32],
    pub shows: &'e mut [u8],
    pub header: &'f mut [u8],
}

impl Buffers<'_, '_, '_, '_, '_, '_> {
    // Whether the bytes, all together, are within the limit, and each slice has room.
    #[tactic(auto, unfolding(crate::specs::code::Stages::fits_in), using(crate::proofs::MultiLaws::over_limit))]
    fn has_room(&self, need: Counts) -> bool
        requires { need.shows ≤ 25000000 }
        ensures { result ≡ fits_in (output_room (lent_of self.now)) need }
    {
        if need.picture > LIMIT {
            return false;
        }
        if need.header > LIMIT {
            return false;
        }
        let all = need.picture + need.shows + need.header;
        (all <= LIMIT)
            & (need.units <= self.list.len())
            & (need.cues <= self.cues.len())
            & (need.picture <= self.pictures.len())
            & (need.ends <= self.ends.len())
            & (need.shows <= self.shows.len())
            & (need.header <= self.header.len())
    }
}

// The slot that the show units of the first segment name.
fn first_slot(segments: NonEmpty, plan: &Plan) -> u64
    ensures { result ≡ answer_or 0 (judged (sequence_in plan.now.sequence) (rewriting (renewal_in plan.now.headers)) (head_key segments.entry.all.picture.now segments.entry.all.numbers.now) (head_golden segments.entry.all.picture.now segments.entry.all.numbers.now)) }
{
    u64::from(slot_or_zero(
        segments.all.key(0),
        segments.all.golden(0),
        &plan.sequence,
        plan.headers.renewal().is_some(),
    ))
}

// How many bytes the sequence header OBU has that is handed out, as far as a usize counts them.
#[tactic(auto, using(crate::proofs::MultiLaws::header_length))]
fn header_len(segments: NonEmpty, headers: &Headers) -> usize
    ensures { result ≡ capped (length (header_in segments.entry.all.picture.now segments.entry.all.numbers.now headers.now)) }
{
    obu_len(headers.extension(), headers.payload(segments).len())
}

// Writes that OBU, where its room is known.
#[tactic(auto, unfolding(crate::specs::code::Stages::header_in), using(crate::proofs::MultiLaws::header_length, crate::proofs::MultiLaws::one_passes))]
fn put_sequence_obu(out: &mut [u8], segments: NonEmpty, headers: &Headers)
    requires { length (header_in segments.all.picture.now segments.all.numbers.now headers.now) ≤ length out.old }
    ensures { out.new ≡ pasted out.old 0 (header_in segments.entry.all.picture.now segments.entry.all.numbers.now headers.now) }
{
    put_measured(out, 0, 1, headers.extension(), headers.payload(segments));
}

// How much there is to write; of picture bytes and the header, as far as a usize counts.
fn count_all(segments: NonEmpty, gop: u64, plan: &Plan) -> Counts
    requires gop { 1 ≤ gop }
    requires small { total (frames_in segments.all.numbers.now) ≤ 5000000 }
    ensures { result ≡ needed gop segments.entry.all.picture.now segments.entry.all.numbers.now plan.now }
{
    let count = segment_count(segments.all.numbers);
    Counts {
        units: total_frames(segments.all.numbers) as usize,
        cues: count_cues(gop, segments.all.numbers),
        picture: plan.bytes,
        ends: 2 * count,
        shows: 5 * count,
        header: header_len(segments, &plan.headers),
        golden_slot: first_slot(segments, plan),
    }
}

// From segments.
pub fn assemble_multi(
    segments: Segments<'_, '_>,
    settings: Settings,
    buffers: &mut Buffers<'_, '_, '_, '_, '_, '_>,
) -> Result<Counts, Fault>
    ensures handed { Handed (outcome segments.entry.picture.now segments.entry.numbers.now settings) result (record {
      entry = lent_of buffers.old;
      exit = lent_of buffers.new;
    }) }
    ensures same { SameBuffers buffers.old buffers.new }
{
    let plan = plan_multi(segments, settings)?;
    let some = NonEmpty { all: segments };
    let need = count_all(some, settings.gop, &plan);
    if !buffers.has_room(need) {
        return Err(Fault::overall(Refusal::NoRoom));
    }
    put_list(buffers.list, buffers.cues, settings.gop, segments.numbers);
    let renewal = plan.headers.renewal();
    put_pictures(buffers.pictures, buffers.ends, segments, renewal);
    put_shows(buffers.shows, segments, &plan.sequence, renewal.is_some());
    put_sequence_obu(buffers.header, some, &plan.headers);
    Ok(need)
}

// A refusal's number, and in the high bits its segment, counted from 1 so that 0 says that none is to blame.
pub fn code_of(fault: Fault) -> u64
    ensures { result ≡ assembled_code (outcome_of (Err fault)) }
{
    let segment = fault.segment.map_or(0, |i| i as u64 % 4294967295 + 1);
    u64::from(u32::from(fault.refusal)) + segment * 4294967296
}
