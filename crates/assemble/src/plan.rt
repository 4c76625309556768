// What is decided before anything is written: the refusals in 01's order, and what the units are written from.
ghost use Rattle.std.specs.Prelude.{◌≡◌, true, ◌≤◌};
ghost use Rattle.std.proofs.Math.Option.{none, some};
ghost use Rattle.bitio.specs.Parse.{answer};
ghost use Rattle.bitio.specs.Refusal.{says};
ghost use Rattle.obu.specs.Obu.{obu_bytes};
ghost use Rattle.obu.specs.Write.{obu};
ghost use Rattle.header.specs.Sequence.{sequence_in};
ghost use Rattle.emittable.specs.Emittable.{emittable};
ghost use Rattle.emit.specs.Emit.{sequence_bytes};
ghost use Rattle.blocks.specs.Numbers.{head_key};
ghost use Rattle.pictures.specs.Flat.{first_sequence};
ghost use Rattle.pictures.specs.Says.{outcome_of};
ghost use Rattle.pictures.specs.code.Rewrite.{obu_in};
ghost use Rattle.assemble.specs.code.Stages.{WasRead, from_pictures, from_timing, from_header, checked, planned, renewal_in, header_in, plan_says};

use crate::headers::{Headers, Renewal};
use crate::nonempty::NonEmpty;
use bitio::limits::check_limit;
use bitio::refusal::Refusal;
use blocks::numbers::Segments;
use emit::seq_header::emit::emit_sequence_header;
use header::seq_header::SequenceObu;
use header::seq_header::check::read_supported;
use header::seq_header::timing::with_timing_info_rate;
use obu::reader::Obu;
use obu::unit::{Kind, find_obu};
use pictures::fault::{Fault, in_segment};
use pictures::headers::same_headers;
use pictures::pictures::measure_pictures;
use pictures::settings::Settings;
use pictures::sizes::{check_ranges, check_sizes};

#[derive(Clone, Copy)]
pub struct Plan {
    // the sequence header that goes out
    pub sequence: SequenceObu,
    pub headers: Headers,
    // how many picture bytes there are, as far as a usize counts them
    pub bytes: usize,
}

// 34, 36, 21 to 25.
#[tactic(auto, using(crate::proofs::PlanLaws::checked_long, crate::proofs::PlanLaws::checked_ranges))]
fn check_input(segments: Segments, gop: u64) -> Result<(), Fault>
    ensures { outcome_of result ≡ checked segments.entry.picture.now segments.entry.numbers.now gop }
{
    check_limit(segments.picture)?;
    check_ranges(segments)?;
    check_sizes(gop, segments.numbers)
}

// Per segment: 1 to 5, 28, 14, 29 to 33.
fn plan_pictures(segments: Segments, sequence: SequenceObu, headers: Headers) -> Result<Plan, Fault>
    ensures { plan_says segments.entry.picture.now segments.entry.numbers.now result ≡ from_pictures segments.entry.picture.now segments.entry.numbers.now (sequence_in sequence) (renewal_in headers) (header_in segments.entry.picture.now segments.entry.numbers.now headers) }
{
    let bytes = measure_pictures(segments, &sequence, headers.renewal())?;
    Ok(Plan {
        sequence,
        headers,
        bytes,
    })
}

// Sequence headers are replaced by this one.
fn plan_renewed(segments: Segments, sequence: SequenceObu) -> Result<Plan, Fault>
    requires { emittable (sequence_in sequence) ≡ true }
    ensures { plan_says segments.entry.picture.now segments.entry.numbers.now result ≡ from_pictures segments.entry.picture.now segments.entry.numbers.now (sequence_in sequence) (some (sequence_bytes (sequence_in sequence))) (obu_bytes (obu 1 none (sequence_bytes (sequence_in sequence)))) }
{
    let mut bytes = [0u8; 400];
    let len = emit_sequence_header(&sequence, &mut bytes, 0).unwrap_or(0);
    plan_pictures(segments, sequence, Headers::Renewed(Renewal { bytes, len }))
}

// Timing absent: sequence headers are replaced by one with the rate.
fn plan_timing(
    segments: Segments,
    sequence: SequenceObu,
    obu: Obu,
    settings: Settings,
) -> Result<Plan, Fault>
    requires sequence { obu.obu_type ≡ 1 }
    requires read { WasRead (sequence_in sequence) }
    ensures { plan_says segments.entry.picture.now segments.entry.numbers.now result ≡ from_timing segments.entry.picture.now segments.entry.numbers.now settings (obu_in (head_key segments.entry.picture.now segments.entry.numbers.now) obu) (sequence_in sequence) }
{
    if sequence.header.opening.timing.timing_info_present {
        return plan_pictures(segments, sequence, Headers::Own(obu));
    }
    let header = with_timing_info_rate(sequence.header, settings.fps, settings.den)?;
    let operating_points = sequence.operating_points;
    plan_renewed(
        segments,
        SequenceObu {
            header,
            operating_points,
        },
    )
}

// The first key's header, 14 to 20, and the same in later keys: 1 to 5, 27.
fn plan_header(segments: NonEmpty, obu: Obu, settings: Settings) -> Result<Plan, Fault>
    requires { obu.obu_type ≡ 1 }
    ensures { plan_says segments.entry.all.picture.now segments.entry.all.numbers.now result ≡ from_header segments.entry.all.picture.now segments.entry.all.numbers.now settings (obu_in (head_key segments.entry.all.picture.now segments.entry.all.numbers.now) obu) }
{
    let first = obu.payload(segments.all.key(0));
    let sequence = in_segment(read_supported(first), 0)?;
    same_headers(segments.all, first)?;
    plan_timing(segments.all, sequence, obu, settings)
}

// The first sequence header OBU of a key: 1 to 5, 26.
fn first_sequence(key: &[u8]) -> Result<Obu, Refusal>
    ensures { answer (obu_in key.now) (says result) ≡ first_sequence key.now }
{
    find_obu(key, Kind::SequenceHeader, false)?.ok_or(Refusal::NoSequenceHeader)
}

// All that comes before 35.
pub(crate) fn plan_multi(segments: Segments, settings: Settings) -> Result<Plan, Fault>
    ensures { plan_says segments.entry.picture.now segments.entry.numbers.now result ≡ planned segments.entry.picture.now segments.entry.numbers.now settings }
{
    check_input(segments, settings.gop)?;
    let some = NonEmpty { all: segments };
    let obu = in_segment(first_sequence(segments.key(0)), 0)?;
    plan_header(some, obu, settings)
}
