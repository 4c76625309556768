// Memory that a request is lent: marked before the call, and looked at after it.
ghost use Rattle.std.specs.Prelude.{◌≡◌, drop};
ghost use Rattle.std.specs.List.{list_all};
ghost use Rattle.protocol.specs.Marked.{byte_mark, end_mark, number_mark, marked_for};
ghost use Rattle.protocol.specs.Told.{SameMemory};
ghost use Rattle.protocol.specs.Room.{room_prefix, size_lent, lent_by, is_there, lent_within};

use crate::fields::number;
use crate::memory::Memory;
use crate::text::word_at;

// As much as there ever is of bytes, of ends or list entries, and of times or cues.
pub const BYTES_LENT: usize = 65536;

pub const ENDS_LENT: usize = 32768;

pub const BYTE_MARK: u8 = 0xa5;

pub const END_MARK: u32 = 0xa5a5_a5a5;

pub(crate) const NUMBER_MARK: u64 = 0xa5a5_a5a5_a5a5_a5a5;

// How much a line's prefix `room B E T ` lends.
#[derive(Clone, Copy)]
pub struct Room {
    pub bytes: u64,
    // ends or list entries
    pub ends: u64,
    // times or cues
    pub times: u64,
}

// What stands before the request, which starts at `next`.
#[derive(Clone, Copy)]
pub struct Prefix {
    pub room: Option<Room>,
    pub next: usize,
}

// Where no three numbers follow `room`, those before the bad one, and 0 for each from there on.
#[tactic(auto, unfolding(crate::specs::Room::room_prefix))]
pub fn room_prefix(line: &[u8]) -> Result<Prefix, Room>
    ensures { result ≡ room_prefix line.now }
{
    let word = word_at(line, 0, b' ');
    if word != b"room".as_slice() {
        return Ok(Prefix {
            room: None,
            next: 0,
        });
    }
    let mut room = Room {
        bytes: 0,
        ends: 0,
        times: 0,
    };
    let (bytes, next) = number(line, word.len() + 1).ok_or(room)?;
    room.bytes = bytes;
    let (ends, next) = number(line, next).ok_or(room)?;
    room.ends = ends;
    let (times, next) = number(line, next).ok_or(room)?;
    room.times = times;
    Ok(Prefix {
        room: Some(room),
        next,
    })
}

// What a request is lent, exactly.
#[derive(Clone, Copy)]
pub struct Lent {
    // where it fills the program's memory itself, and lends what these numbers say to the call it makes
    pub is_own: bool,
    pub bytes: usize,
    pub ends: usize,
    pub numbers: usize,
}

// How much of one sort of memory a request is lent where no prefix says so.
#[derive(Clone, Copy)]
pub enum Share {
    // nor where one does
    Nothing,
    // 512
    Few,
    // all there is
    All,
}

impl Share {
    fn size(self, given: Option<u64>, most: usize) -> usize
        ensures { result ≡ size_lent self given most }
    {
        let ample = match self {
            Share::Nothing => return 0,
            Share::Few => 512,
            Share::All => most,
        };
        given.map_or(ample, |n| n as usize)
    }
}

// What requests of a name are lent.
#[derive(Clone, Copy)]
pub struct Shares {
    pub is_own: bool,
    pub bytes: Share,
    pub ends: Share,
    pub numbers: Share,
}

impl Shares {
    // As the prefix says, or ample.
    pub fn lent(self, room: Option<Room>) -> Lent
        ensures { result ≡ lent_by self room }
    {
        Lent {
            is_own: self.is_own,
            bytes: self.bytes.size(room.map(|r| r.bytes), BYTES_LENT),
            ends: self.ends.size(room.map(|r| r.ends), ENDS_LENT),
            numbers: self.numbers.size(room.map(|r| r.times), ENDS_LENT),
        }
    }
}

impl Lent {
    pub fn is_there(self) -> bool
        ensures { result ≡ is_there self }
    {
        self.bytes <= BYTES_LENT && self.ends <= ENDS_LENT && self.numbers <= ENDS_LENT
    }

    // How much of the program's memory, so large, a request may fill.
    pub fn within(self, bytes: usize, ends: usize, numbers: usize) -> Lent
        ensures { result ≡ lent_within self bytes ends numbers }
    {
        if !self.is_own {
            return self;
        }
        Lent {
            is_own: true,
            bytes,
            ends,
            numbers,
        }
    }
}

// Marks what is lent to a call.
pub fn mark_lent(is_own: bool, memory: &mut Memory<'_, '_, '_>)
    ensures bytes { memory.new.bytes.now ≡ marked_for is_own byte_mark memory.old.bytes.now }
    ensures ends { memory.new.ends.now ≡ marked_for is_own end_mark memory.old.ends.now }
    ensures numbers { memory.new.numbers.now ≡ marked_for is_own number_mark memory.old.numbers.now }
    ensures same { SameMemory memory.old memory.new }
{
    if is_own {
        return;
    }
    memory.bytes.fill(BYTE_MARK);
    memory.ends.fill(END_MARK);
    memory.numbers.fill(NUMBER_MARK);
}

// Whether every element from `from` on is as it was marked.
pub fn is_marked<T: Copy + PartialEq>(memory: &[T], from: usize, mark: T) -> bool
    ensures { result ≡ list_all (λ v. T.eq v mark) (drop from memory.now) }
{
    memory.iter().skip(from).all(|v| *v == mark)
}
