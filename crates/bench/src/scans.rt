// Frame headers scanned one behind the other under one sequence header, for comparisons: only where each ends is told.
ghost use Rattle.std.specs.Prelude.{◌≡◌};
ghost use Rattle.bench.specs.Scans.{sum_of, scan_sum};

use frame::frame_header::sections::removals;
use header::seq_header::read::parse_sequence_header;
use obu::reader::part_in;
use uheader::dpb::empty_slots;
use uheader::scanner::Scanner;

// The ends of all frames, summed modulo 2^64; 0 for a refused one.
fn sum_ends(scanner: Scanner, frames: &[u8], ends: &[u32]) -> u64
    ensures { result ≡ sum_of scanner.entry.header.now scanner.entry.removals frames.now ends.now }
{
    let mut slots = empty_slots();
    let mut total: u64 = 0;
    for i in 0..ends.len() {
        let scanned = scanner.scan_header(&mut slots, part_in(frames, ends, i));
        total = total.wrapping_add(scanned.map_or(0, |scan| scan.end_pos as u64));
    }
    total
}

// The same of a sequence header's payload, which is read once; 0 where it is refused.
pub fn scan_sum(sequence: &[u8], frames: &[u8], ends: &[u32]) -> u64
    ensures { result ≡ scan_sum sequence.now frames.now ends.now }
{
    match parse_sequence_header(sequence) {
        Ok(sequence) => {
            let scanner = Scanner {
                header: &sequence.header,
                removals: removals(sequence.points()),
            };
            sum_ends(scanner, frames, ends)
        }
        Err(_) => 0,
    }
}
