// The operations of the crate header.
ghost use Rattle.std.specs.Prelude.{◌≡◌};
ghost use Rattle.bitio.specs.Parse.{answer};
ghost use Rattle.bitio.specs.Refusal.{says};
ghost use Rattle.header.specs.Sequence.{sequence_in};
ghost use Rattle.protocol.specs.Answers.{line, parts_of, numbered, filled, with_numbers};
ghost use Rattle.replay_headers.specs.Headers.{support_of, seq_told, support_told, emitted_told, emit_told, timed_of, timed_told, frame_fields, frame_told};

use crate::sequence_fields::put_sequence;
use bitio::refusal::Refusal;
use emit::seq_header::emit::emit_sequence_header;
use frame::frame_header::FrameHeaderInfo;
use frame::frame_header::read::parse_frame_header_info;
use header::seq_header::SequenceObu;
use header::seq_header::check::check_supported;
use header::seq_header::read::parse_sequence_header;
use header::seq_header::timing::with_timing_info_rate;
use protocol::answer::{Answer, count, done, refused};

// seq PAYLOAD
pub fn seq(s: &[u8], numbers: &mut [u64]) -> Answer
    ensures { numbered (line result) numbers.new ≡ seq_told s.now numbers.old }
{
    // kept: `map_or_else` was tried, and the proof of its closure, which writes to `numbers`, didn't close.
    match parse_sequence_header(s) {
        Ok(sequence) => put_sequence(&sequence, numbers),
        Err(refusal) => refused(refusal),
    }
}

#[tactic(auto, unfolding(crate::specs::Headers::support_of, bitio::specs::Parse::and_next))]
fn check_payload(s: &[u8]) -> Result<(), Refusal>
    ensures { says result ≡ support_of s.now }
{
    check_supported(parse_sequence_header(s)?.header)
}

// support PAYLOAD
pub fn support(s: &[u8]) -> Answer
    ensures { line result ≡ support_told s.now }
{
    check_payload(s).map_or_else(refused, |()| done())
}

fn tell_emitted(read: Result<SequenceObu, Refusal>, memory: &mut [u8]) -> Answer
    ensures { filled (line result) memory.new ≡ emitted_told (answer sequence_in (says read)) memory.old }
{
    // kept: `and_then` was tried, and the proof of its closure, which writes to `memory`, didn't close.
    match read {
        Ok(sequence) => count(emit_sequence_header(&sequence, memory, 0)),
        Err(refusal) => refused(refusal),
    }
}

// emit PAYLOAD
pub fn emit(s: &[u8], memory: &mut [u8]) -> Answer
    ensures { filled (line result) memory.new ≡ emit_told s.now memory.old }
{
    tell_emitted(parse_sequence_header(s), memory)
}

fn read_timed(s: &[u8], num: u32, den: u32) -> Result<SequenceObu, Refusal>
    ensures { answer sequence_in (says result) ≡ timed_of num den s.now }
{
    let sequence = parse_sequence_header(s)?;
    let header = with_timing_info_rate(sequence.header, num, den)?;
    Ok(SequenceObu { header, ..sequence })
}

// timed PAYLOAD NUM DEN
pub fn timed(s: &[u8], num: u64, den: u64, memory: &mut [u8]) -> Answer
    ensures { filled (line result) memory.new ≡ timed_told s.now num den memory.old }
{
    let num = (num % 0x1_0000_0000) as u32;
    let den = (den % 0x1_0000_0000) as u32;
    tell_emitted(read_timed(s, num, den), memory)
}

fn put_frame(x: FrameHeaderInfo, numbers: &mut [u64]) -> Answer
    ensures { numbered (line result) numbers.new ≡ with_numbers (numbered (parts_of 0 0) numbers.old) (frame_fields x) }
{
    match x {
        FrameHeaderInfo::Existing(slot) => done().pair(1, slot, numbers),
        FrameHeaderInfo::Frame(f) => {
            let fields = [
                0,
                u64::from(f.frame_type),
                f.show_frame as u64,
                f.showable_frame as u64,
                f.refresh_frame_flags,
                f.order_hint,
            ];
            done().list(&fields, numbers)
        }
    }
}

// frame SEQPAYLOAD FRAMEPAYLOAD
pub fn frame(sequence: &[u8], payload: &[u8], numbers: &mut [u64]) -> Answer
    ensures { numbered (line result) numbers.new ≡ frame_told sequence.now payload.now numbers.old }
{
    // kept: `map_or_else` was tried, and the proof of its closure, which writes to `numbers`, didn't close.
    match parse_frame_header_info(payload, sequence) {
        Ok(x) => put_frame(x, numbers),
        Err(refusal) => refused(refusal),
    }
}
