// The operations of the crate obu.
ghost use Rattle.std.specs.Prelude.{◌≡◌};
ghost use Rattle.obu.specs.Place.{extension_says, part};
ghost use Rattle.obu.specs.Write.{obu};
ghost use Rattle.protocol.specs.Answers.{line, filled};
ghost use Rattle.protocol.specs.Told.{told_in, SameMemory};
ghost use Rattle.replay_headers.specs.Headers.{extension_number, extension_from, tell_obu, AllTold, obus_told, obuput_told};

use obu::obus::Obus;
use obu::reader::Obu;
use obu::unit::{Kind, count_obus};
use obu::writer::put_obu;
use protocol::answer::{Answer, count, done, refused};
use protocol::kinds::NO_BYTE;
use protocol::memory::Memory;

fn extension_number(extension: Option<u8>) -> u64
    ensures { result ≡ extension_number (extension_says extension) }
{
    extension.map_or(NO_BYTE, |e| e as u64)
}

// One more OBU: TYPE and EXT, and its payload as a part.
fn put_one(s: &[u8], o: Obu, so_far: Answer, memory: &mut Memory<'_, '_, '_>) -> Answer
    ensures told { told_in (line result) memory.new ≡ tell_obu (told_in (line so_far) memory.old) (obu o.obu_type (extension_says o.extension) (part s.now o.start o.end)) }
    ensures same { SameMemory memory.old memory.new }
{
    let extension = extension_number(o.extension);
    so_far
        .pair(o.obu_type as u64, extension, memory.numbers)
        .part(o.payload(s), memory.bytes, memory.ends)
}

// All OBUs of a unit that reads.
fn put_obus(s: &[u8], so_far: Answer, memory: &mut Memory<'_, '_, '_>) -> Answer
    ensures told { AllTold s.now (told_in (line so_far) memory.old) (told_in (line result) memory.new) }
    ensures same { SameMemory memory.old memory.new }
{
    let mut answer = so_far;
    for found in Obus::new(s) {
        let Ok(o) = found else {
            return answer;
        };
        answer = put_one(s, o, answer, memory);
    }
    answer
}

// obus UNIT
pub fn obus(s: &[u8], memory: &mut Memory<'_, '_, '_>) -> Answer
    ensures told { told_in (line result) memory.new ≡ obus_told s.now memory.old.bytes.now memory.old.ends.now memory.old.numbers.now }
    ensures same { SameMemory memory.old memory.new }
{
    match count_obus(s, Kind::Any) {
        Ok(n) => {
            let answer = done().number(n as u64, memory.numbers);
            put_obus(s, answer, memory)
        }
        Err(refusal) => refused(refusal),
    }
}

fn extension_of(value: u64) -> Option<u8>
    ensures { extension_says result ≡ extension_from value }
{
    if value == NO_BYTE {
        None
    } else {
        Some((value % 256) as u8)
    }
}

// obuput TYPE EXT PAYLOAD
pub fn obuput(kind: u64, extension: u64, payload: &[u8], memory: &mut [u8]) -> Answer
    ensures { filled (line result) memory.new ≡ obuput_told kind extension payload.now memory.old }
{
    let obu_type = (kind % 256) as u8;
    count(put_obu(memory, 0, obu_type, extension_of(extension), payload))
}
