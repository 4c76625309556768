// The operation of each request.
ghost use Rattle.std.specs.Prelude.{◌≡◌};
ghost use Rattle.protocol.specs.Answers.{line};
ghost use Rattle.protocol.specs.Told.{told_in, SameMemory};
ghost use Rattle.replay_requests.specs.Operations.{operated};

use crate::rows::Operation;
use obu::reader::part_in;
use protocol::answer::Answer;
use protocol::lent::Lent;
use protocol::memory::{Memory, number_at};
use replay_headers::{bitio_ops, header_ops, obu_ops};
use replay_lists::{assemble_ops, play_ops, slot_ops};
use replay_scan::scan_ops;
use replay_units::container_ops;

// The fields of a request: byte strings, their ends, and numbers.
#[derive(Clone, Copy)]
pub struct Given<'a> {
    pub bytes: &'a [u8],
    pub ends: &'a [u32],
    pub numbers: &'a [u64],
}

// The answer of a request, in memory that is lent exactly.
#[tactic(auto, unfolding(crate::specs::Operations::operated))]
pub fn operate(
    operation: Operation,
    lent: Lent,
    given: Given<'_>,
    memory: &mut Memory<'_, '_, '_>,
) -> Answer
    ensures told { told_in (line result) memory.new ≡ operated operation lent given.entry.bytes.now given.entry.ends.now given.entry.numbers.now memory.old.bytes.now memory.old.ends.now memory.old.numbers.now }
    ensures same { SameMemory memory.old memory.new }
{
    let s = given.bytes;
    let ends = given.ends;
    let numbers = given.numbers;
    let a = number_at(numbers, 0);
    let b = number_at(numbers, 1);
    match operation {
        Operation::Bits => bitio_ops::bits(s, a, b, memory.numbers),
        Operation::Uvlc => bitio_ops::uvlc(s, a, memory.numbers),
        Operation::Leb => bitio_ops::leb(s, memory.numbers),
        Operation::Lebput => bitio_ops::lebput(a, memory.bytes),
        Operation::Obus => obu_ops::obus(s, memory),
        Operation::Obuput => obu_ops::obuput(a, b, s, memory.bytes),
        Operation::Seq => header_ops::seq(s, memory.numbers),
        Operation::Support => header_ops::support(s),
        Operation::Emit => header_ops::emit(s, memory.bytes),
        Operation::Timed => header_ops::timed(s, a, b, memory.bytes),
        Operation::Frame => header_ops::frame(
            part_in(s, ends, 0),
            part_in(s, ends, 1),
            memory.numbers,
        ),
        Operation::Stream => container_ops::stream(s, memory.bytes, memory.ends),
        Operation::Annexb => container_ops::annexb(s, memory.bytes, memory.ends),
        Operation::Wstream => container_ops::wstream(s, ends, memory.bytes),
        Operation::Wannexb => container_ops::wannexb(s, ends, memory.bytes),
        Operation::Canon => container_ops::canon(s, memory.bytes),
        Operation::Packets => container_ops::packets(s, ends, numbers, memory),
        Operation::Assemble => assemble_ops::assemble(lent, s, ends, numbers, memory),
        Operation::Play => play_ops::play(s, ends, numbers, memory.numbers),
        Operation::Scan => scan_ops::scan(s, ends, memory.numbers),
        Operation::Slot => slot_ops::slot(a, memory.numbers),
    }
}
