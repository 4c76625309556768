// The flat numbers of the segments: read and written here alone. Code above goes by names, not by places.
ghost use Rattle.std.specs.Prelude.{◌≡◌, ◌*◌, ◌<◌};
ghost use Rattle.bitio.specs.Lent.{pasted};
ghost use Rattle.obu.specs.Place.{part};
ghost use Rattle.blocks.specs.Numbers.{width, record_of, head_segment, inside, head_inside, segment_count, is_whole, record_at, key_at, golden_at, frames_at};

use obu::reader::payload;

// How many numbers a segment needs of lent room.
pub const WIDTH: usize = 5;

// Where its key starts and ends in the picture bytes, where its golden does, and its frames.
#[derive(Clone, Copy, Default)]
pub struct Segment {
    pub key_start: u64,
    pub key_end: u64,
    pub golden_start: u64,
    pub golden_end: u64,
    pub frames: u64,
}

pub fn segment_count(segments: &[u64]) -> usize
    ensures { result ≡ segment_count segments.now }
{
    segments.len() / WIDTH
}

// Whether the numbers are records and no more.
pub fn is_whole(segments: &[u64]) -> bool
    ensures { result ≡ is_whole segments.now }
{
    segments.len() % WIDTH == 0
}

// The segment of record i.
pub fn segment_of(segments: &[u64], i: usize) -> Segment
    requires { i < segment_count segments.now }
    ensures { result ≡ head_segment (record_at segments.now i) }
{
    let at = WIDTH * i;
    Segment {
        key_start: segments[at],
        key_end: segments[at + 1],
        golden_start: segments[at + 2],
        golden_end: segments[at + 3],
        frames: segments[at + 4],
    }
}

pub fn frames_of(segments: &[u64], i: usize) -> u64
    requires { i < segment_count segments.now }
    ensures { result ≡ frames_at segments.now i }
{
    segment_of(segments, i).frames
}

// Whether the bytes from a to e lie within the picture bytes.
fn is_inside(picture: &[u8], a: u64, e: u64) -> bool
    ensures { result ≡ inside picture.now a e }
{
    a <= e && e <= picture.len() as u64
}

// The picture bytes from a to e; none where those are not within them.
fn bytes_between(picture: &[u8], a: u64, e: u64) -> &[u8]
    ensures { result.now ≡ part picture.now a e }
{
    payload(picture, a as usize, e as usize)
}

// Segments in lent memory: the bytes that their units stand in, and their flat numbers. A unit is a part of the bytes, and
// can outlive the numbers.
#[derive(Clone, Copy)]
pub struct Segments<'p, 'n> {
    pub picture: &'p [u8],
    pub numbers: &'n [u64],
}

impl<'p> Segments<'p, '_> {
    pub fn key(self, i: usize) -> &'p [u8]
        requires { i < segment_count self.numbers.now }
        ensures { result.now ≡ key_at self.entry.picture.now self.entry.numbers.now i }
    {
        let segment = segment_of(self.numbers, i);
        bytes_between(self.picture, segment.key_start, segment.key_end)
    }

    pub fn golden(self, i: usize) -> &'p [u8]
        requires { i < segment_count self.numbers.now }
        ensures { result.now ≡ golden_at self.entry.picture.now self.entry.numbers.now i }
    {
        let segment = segment_of(self.numbers, i);
        bytes_between(self.picture, segment.golden_start, segment.golden_end)
    }

    // Whether both units of segment i lie within the picture bytes.
    pub fn is_within(self, i: usize) -> bool
        requires { i < segment_count self.numbers.now }
        ensures { result ≡ head_inside self.entry.picture.now (record_at self.entry.numbers.now i) }
    {
        let segment = segment_of(self.numbers, i);
        is_inside(self.picture, segment.key_start, segment.key_end)
            && is_inside(self.picture, segment.golden_start, segment.golden_end)
    }
}

// Writes record i, where its room is known.
pub fn put_record(numbers: &mut [u64], i: usize, segment: Segment)
    requires { i < segment_count numbers.old }
    ensures { numbers.new ≡ pasted numbers.old (width * i) (record_of segment) }
{
    let at = WIDTH * i;
    numbers[at] = segment.key_start;
    numbers[at + 1] = segment.key_end;
    numbers[at + 2] = segment.golden_start;
    numbers[at + 3] = segment.golden_end;
    numbers[at + 4] = segment.frames;
}
