// Answers the requests of the line protocol, one a line, from standard input to standard output.
#![tactic(auto)]

use protocol::fields::Fields;
use protocol::input::Input;
use protocol::lent::mark_lent;
use protocol::memory::Memory;
use protocol::output::{Buffer, Output};
use protocol::printer::{Left, bad_line, put_answer};
use replay_requests::{Given, Request, operate, read_request};

// An end for each of a line's byte strings.
const FIELDS: usize = 32768;

// What a request may fill: for assembly the pictures, the shows and the header, and an end for every entry that there could
// be. Numbers for a scan of the shortest frames, as many as a line has room for: three bytes, and 25 numbers each.
const BYTES: usize = 0x3_0000;

const ENDS: usize = 0x1_0000;

const NUMBERS: usize = 0x4_0000;

// All that the program works in.
#[derive(Drop)]
struct Program {
    input: Input,
    piece: Buffer,
    line: Buffer,
    // where the fields of a line go
    decoded: Buffer,
    ends: [u32; FIELDS],
    numbers: [u64; FIELDS],
    // what requests are lent
    memory: [u8; BYTES],
    out_ends: [u32; ENDS],
    out_numbers: [u64; NUMBERS],
    output: Output,
}

// As many as fit of what the fields of a line gave.
fn given<'a>(fields: Fields, bytes: &'a [u8], ends: &'a [u32], numbers: &'a [u64]) -> Given<'a> {
    let s = fields.bytes.min(bytes.len());
    let u = fields.ends.min(ends.len());
    let n = fields.numbers.min(numbers.len());
    Given {
        bytes: &bytes[..s],
        ends: &ends[..u],
        numbers: &numbers[..n],
    }
}

// The line of a request's answer, in memory of which so much as it asks for is lent, exactly.
fn answer(request: Request, given: Given<'_>, memory: Memory<'_, '_, '_>, output: &mut Output) {
    let Memory {
        bytes,
        ends,
        numbers,
    } = memory;
    let lent = request.lent.within(bytes.len(), ends.len(), numbers.len());
    let s = lent.bytes.min(bytes.len());
    let u = lent.ends.min(ends.len());
    let n = lent.numbers.min(numbers.len());
    let mut memory = Memory {
        bytes: &mut bytes[..s],
        ends: &mut ends[..u],
        numbers: &mut numbers[..n],
    };
    mark_lent(lent.is_own, &mut memory);
    let answer = operate(request.operation, request.lent, given, &mut memory);
    let Memory {
        bytes,
        ends,
        numbers,
    } = memory;
    let left = Left {
        answer,
        memory: bytes,
        ends,
        numbers,
    };
    put_answer(left, request.format, lent.is_own, output);
}

impl Program {
    // Answers the line of so many characters that was read.
    fn answer_line(&mut self, len: usize) {
        let mut fields = Memory {
            bytes: &mut self.decoded,
            ends: &mut self.ends,
            numbers: &mut self.numbers,
        };
        let Ok(request) = read_request(len, &self.line, &mut fields) else {
            return bad_line(&mut self.output);
        };
        let given = given(request.fields, &self.decoded, &self.ends, &self.numbers);
        let memory = Memory {
            bytes: &mut self.memory,
            ends: &mut self.out_ends,
            numbers: &mut self.out_numbers,
        };
        answer(request, given, memory, &mut self.output);
    }

    // Answers all lines. Nothing says that the input ends, so the turns are counted up to a number that no run reaches.
    fn serve(&mut self, rt: &impl std::io::Input) {
        for _ in 0..u64::MAX {
            let Some(len) = self.input.read_line(rt, &mut self.piece, &mut self.line) else {
                break;
            };
            self.answer_line(len);
        }
        self.output.flush();
    }
}

fn main(rt: HostRuntime) {
    let mut program = Program {
        input: Input::new(),
        piece: io::large_buffer(),
        line: io::large_buffer(),
        decoded: io::large_buffer(),
        ends: [0; FIELDS],
        numbers: [0; FIELDS],
        memory: [0; BYTES],
        out_ends: [0; ENDS],
        out_numbers: [0; NUMBERS],
        output: Output::new(),
    };
    program.serve(&rt);
}
