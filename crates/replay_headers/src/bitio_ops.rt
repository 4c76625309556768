// The operations of the crate bitio.
ghost use Rattle.std.specs.Prelude.{◌≡◌};
ghost use Rattle.bitio.specs.Read.{reading};
ghost use Rattle.protocol.specs.Answers.{line, numbered, filled};
ghost use Rattle.protocol.specs.Told.{numbers_by};
ghost use Rattle.replay_headers.specs.Headers.{reading_answer, bits_told, uvlc_told, leb_told, lebput_told};

use bitio::leb128::{leb128, leb128_encode};
use bitio::reader::{BitReader, Read};
use bitio::refusal::Refusal;
use protocol::answer::{Answer, count, done, refused};

// The number that was read, and the place behind it.
fn tell_read(read: Read<u64>, numbers: &mut [u64]) -> Answer
    ensures { numbered (line result) numbers.new ≡ numbers_by (λ l. l) (reading_answer (reading read)) numbers.old }
{
    // kept: `map_or_else` was tried, and the proof of its closure, which writes to `numbers`, didn't close.
    match read {
        Ok((v, next)) => done().pair(v, next.pos as u64, numbers),
        Err(refusal) => refused(refusal),
    }
}

// bits DATA POS N
pub fn bits(s: &[u8], pos: u64, n: u64, numbers: &mut [u64]) -> Answer
    ensures { numbered (line result) numbers.new ≡ bits_told s.now pos n numbers.old }
{
    let reader = BitReader { pos: pos as usize };
    tell_read(reader.f(s, n as usize), numbers)
}

// uvlc DATA POS
pub fn uvlc(s: &[u8], pos: u64, numbers: &mut [u64]) -> Answer
    ensures { numbered (line result) numbers.new ≡ uvlc_told s.now pos numbers.old }
{
    let reader = BitReader { pos: pos as usize };
    tell_read(reader.uvlc(s), numbers)
}

// leb DATA
pub fn leb(s: &[u8], numbers: &mut [u64]) -> Answer
    ensures { numbered (line result) numbers.new ≡ leb_told s.now numbers.old }
{
    match leb128(s) {
        Some((v, n)) => done().pair(v, n as u64, numbers),
        None => refused(Refusal::ObuSizeMalformed),
    }
}

// lebput V
pub fn lebput(v: u64, memory: &mut [u8]) -> Answer
    ensures { filled (line result) memory.new ≡ lebput_told v memory.old }
{
    count(leb128_encode(memory, 0, v))
}
