// The fields of a line, each of the kind that its request asks for. They go into memory: byte strings one behind the
// other, the end of each, and numbers.
ghost use Rattle.std.specs.Prelude.{◌≡◌, List, ℕ};
ghost use Rattle.protocol.specs.Room.{number_field};
ghost use Rattle.protocol.specs.Fields.{place, fields_read, read_into, spoiled_of, bytes_field, value_of, value_field, field_of, is_all_of, fields_of};
ghost use Rattle.protocol.specs.Kinds.{form};
ghost use Rattle.protocol.specs.Told.{SameMemory};

use crate::kinds::{Format, Kind, NO_BYTE};
use crate::memory::Memory;
use crate::text::{decode, read_decimal, word_at};

// How far the fields of a line have been read.
#[derive(Clone, Copy)]
pub struct Fields<'a> {
    // where the next one starts: one past the line's end where none is left, far behind it once one was bad
    pub next: usize,
    // the kinds that follow
    pub format: Format<'a>,
    // how many bytes, byte strings and numbers have been read
    pub bytes: usize,
    pub ends: usize,
    pub numbers: usize,
}

// A word as a number of this kind.
#[tactic(auto, unfolding(crate::specs::Fields::value_of))]
fn value(kind: Kind, word: &[u8]) -> Option<u64>
    ensures { result ≡ value_of kind word.now }
{
    if kind == Kind::OptionalByte && word == b"-".as_slice() {
        return Some(NO_BYTE);
    }
    let most = kind.largest()?;
    let v = read_decimal(word)?;
    if v <= most { Some(v) } else { None }
}

impl<'a> Fields<'a> {
    // Nothing is read behind a bad one.
    fn spoiled(self) -> Fields<'a>
        ensures { place result ≡ spoiled_of (place self.entry) }
    {
        Fields {
            next: usize::MAX,
            ..self
        }
    }

    // Whether no field of the line is left, and none is missing.
    pub fn is_all(self, line: &[u8]) -> bool
        ensures { result ≡ is_all_of (place self.entry) line.now }
    {
        self.next == line.len() + 1 && self.format.items.is_empty()
    }

    #[tactic(auto, unfolding(crate::specs::Fields::bytes_field))]
    fn read_bytes(
        self,
        word: &[u8],
        decoded: &mut [u8],
        ends: &mut [u32],
    ) -> Result<Fields<'a>, Fields<'a>>
        ensures { (ns : List ℕ) → fields_read result decoded.new ends.new ns ≡ bytes_field (place self.entry) decoded.old ends.old ns word.now }
    {
        let end = decode(word, decoded, self.bytes).ok_or(self.spoiled())?;
        if self.ends >= ends.len() {
            return Err(self.spoiled());
        }
        ends[self.ends] = (end % 0x1_0000_0000) as u32;
        Ok(Fields {
            bytes: end,
            ends: self.ends + 1,
            ..self
        })
    }

    #[tactic(auto, unfolding(crate::specs::Fields::value_field))]
    fn read_number(
        self,
        kind: Kind,
        word: &[u8],
        numbers: &mut [u64],
    ) -> Result<Fields<'a>, Fields<'a>>
        ensures { (d es : List ℕ) → fields_read result d es numbers.new ≡ value_field (place self.entry) d es numbers.old kind word.now }
    {
        let v = value(kind, word).ok_or(self.spoiled())?;
        if self.numbers >= numbers.len() {
            return Err(self.spoiled());
        }
        numbers[self.numbers] = v;
        Ok(Fields {
            numbers: self.numbers + 1,
            ..self
        })
    }

    // One more field, if one is left: it ends at what stands before the next.
    #[tactic(auto, unfolding(crate::specs::Fields::field_of))]
    fn read_field(
        self,
        line: &[u8],
        memory: &mut Memory<'_, '_, '_>,
    ) -> Result<Fields<'a>, Fields<'a>>
        ensures read { read_into result memory.new ≡ field_of line.now (place self.entry) memory.old.bytes.now memory.old.ends.now memory.old.numbers.now }
        ensures same { SameMemory memory.old memory.new }
    {
        let from = self.next;
        if from > line.len() {
            return Ok(self);
        }
        let (item, format) = self.format.split().ok_or(self.spoiled())?;
        let word = word_at(line, from, format.stop());
        let behind = Fields {
            next: from + word.len() + 1,
            format,
            ..self
        };
        if item.kind == Kind::Bytes {
            behind.read_bytes(word, memory.bytes, memory.ends)
        } else {
            behind.read_number(item.kind, word, memory.numbers)
        }
    }
}

// All fields from `next` on, of which there are fewer than characters; where one is bad or missing, those before it.
pub fn read_fields<'a>(
    line: &[u8],
    next: usize,
    format: Format<'a>,
    memory: &mut Memory<'_, '_, '_>,
) -> Result<Fields<'a>, Fields<'a>>
    ensures read { read_into result memory.new ≡ fields_of line.now next (form format.entry) memory.old.bytes.now memory.old.ends.now memory.old.numbers.now }
    ensures same { SameMemory memory.old memory.new }
{
    let mut fields = Fields {
        next,
        format,
        bytes: 0,
        ends: 0,
        numbers: 0,
    };
    for _ in 0..line.len() {
        fields = fields.read_field(line, memory)?;
    }
    if fields.is_all(line) {
        Ok(fields)
    } else {
        Err(fields)
    }
}

// A number wherever it stands, and where the next field starts.
#[tactic(auto, unfolding(crate::specs::Room::number_field))]
pub(crate) fn number(line: &[u8], from: usize) -> Option<(u64, usize)>
    ensures { result ≡ number_field line.now from }
{
    if from > line.len() {
        return None;
    }
    let word = word_at(line, from, b' ');
    Some((read_decimal(word)?, from + word.len() + 1))
}
