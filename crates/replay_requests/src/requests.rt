// A line as a request.
ghost use Rattle.std.specs.Prelude.{◌≡◌};
ghost use Rattle.protocol.specs.Room.{room_prefix};
ghost use Rattle.protocol.specs.Told.{SameMemory};
ghost use Rattle.replay_requests.specs.Requests.{start_of, requested_in, request_in, request_of};

use crate::rows::{Operation, row_of};
use protocol::fields::{Fields, read_fields};
use protocol::kinds::Format;
use protocol::lent::{Lent, Room, room_prefix};
use protocol::memory::Memory;
use protocol::text::word_at;

#[derive(Clone, Copy)]
pub struct Request {
    pub operation: Operation,
    pub fields: Fields<'static>,
    // how its answer is printed
    pub format: Format<'static>,
    pub lent: Lent,
}

// What is known of a line that is no request: of a name that is none's no kind of field, nothing printed and nothing lent.
#[derive(Clone, Copy)]
pub struct Unread<'a> {
    // empty behind a prefix that is bad
    pub name: &'a [u8],
    pub fields: Fields<'static>,
    pub format: Format<'static>,
    pub lent: Lent,
}

const NO_ITEMS: Format<'static> = Format {
    items: &[],
    repeated: &[],
};

const NOTHING_LENT: Lent = Lent {
    is_own: false,
    bytes: 0,
    ends: 0,
    numbers: 0,
};

// What the prefix lends, and where the name starts: at the line's end behind a bad one.
fn start(line: &[u8]) -> (Option<Room>, usize)
    ensures { result ≡ start_of line.now (room_prefix line.now) }
{
    match room_prefix(line) {
        Ok(prefix) => (prefix.room, prefix.next.min(line.len())),
        Err(_) => (None, line.len()),
    }
}

// Its fields are read behind its name, which stands behind a prefix `room`. One that was not kept whole is no request.
#[tactic(auto, unfolding(crate::specs::Requests::request_in))]
fn read_line<'a>(
    line: &'a [u8],
    is_whole: bool,
    memory: &mut Memory<'_, '_, '_>,
) -> Result<Request, Unread<'a>>
    ensures read { requested_in result memory.new ≡ request_in is_whole line.now memory.old.bytes.now memory.old.ends.now memory.old.numbers.now }
    ensures same { SameMemory memory.old memory.new }
{
    let (room, from) = start(line);
    let name = word_at(line, from, b' ');
    let next = from + name.len() + 1;
    let Some(row) = row_of(name) else {
        let (Ok(fields) | Err(fields)) = read_fields(line, next, NO_ITEMS, memory);
        return Err(Unread {
            name,
            fields,
            format: NO_ITEMS,
            lent: NOTHING_LENT,
        });
    };
    let format = row.answers;
    let lent = row.lends.lent(room);
    match read_fields(line, next, row.asks, memory) {
        Ok(fields) if is_whole && lent.is_there() => Ok(Request {
            operation: row.operation,
            fields,
            format,
            lent,
        }),
        Ok(fields) | Err(fields) => Err(Unread {
            name,
            fields,
            format,
            lent,
        }),
    }
}

// The same of what was kept of a line of so many characters: one that was too long is no request.
// kept: more may be counted than was kept, which a slice cut to its length could not tell
#[tactic(auto, unfolding(crate::specs::Requests::request_of))]
pub fn read_request<'a>(
    len: usize,
    kept: &'a [u8],
    memory: &mut Memory<'_, '_, '_>,
) -> Result<Request, Unread<'a>>
    ensures read { requested_in result memory.new ≡ request_of len kept.now memory.old.bytes.now memory.old.ends.now memory.old.numbers.now }
    ensures same { SameMemory memory.old memory.new }
{
    let n = len.min(kept.len());
    read_line(&kept[..n], n == len, memory)
}
