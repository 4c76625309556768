// The operation of the crate uheader.
ghost use Rattle.std.specs.Prelude.{◌≡◌, drop};
ghost use Rattle.protocol.specs.Answers.{line, parts_of, numbered, with_numbers};
ghost use Rattle.uheader.specs.Scan.{empty_slots};
ghost use Rattle.replay_scan.specs.Scans.{frames_fields, scan_told};

use crate::scan_fields::{put_frame, put_slots};
use header::seq_header::read::parse_sequence_header;
use obu::reader::part_in;
use protocol::answer::{Answer, Numbers, refused};
use uheader::dpb::empty_slots;
use uheader::scan::scan_uncompressed_header;

// The frames are the byte strings behind the first; then the slots.
fn scan_all(sequence: &[u8], s: &[u8], ends: &[u32], numbers: &mut [u64]) -> Answer
    ensures { numbered (line result) numbers.new ≡ with_numbers (numbered (parts_of 0 0) numbers.old) (frames_fields sequence.now s.now ends.now empty_slots 1 (drop 1 ends.now)) }
{
    let mut slots = empty_slots();
    let mut told = Numbers::new(numbers);
    for i in 1..ends.len() {
        let scanned = scan_uncompressed_header(part_in(s, ends, i), sequence, &mut slots);
        put_frame(scanned, &mut told);
    }
    put_slots(&slots, &mut told);
    told.answer
}

// scan SEQPAYLOAD FRAME ..
pub fn scan(s: &[u8], ends: &[u32], numbers: &mut [u64]) -> Answer
    ensures { numbered (line result) numbers.new ≡ scan_told s.now ends.now numbers.old }
{
    let sequence = part_in(s, ends, 0);
    if let Err(refusal) = parse_sequence_header(sequence) {
        return refused(refusal);
    }
    scan_all(sequence, s, ends, numbers)
}
