// The file of boardlist: picture bytes, segments and settings, each after its u32 count, little-endian.
ghost use Rattle.std.specs.Prelude.{◌≡◌, ◌+◌, ◌*◌, ◌≤◌, ◌<◌, ◌^◌, length, take, drop};
ghost use Rattle.bitio.specs.Lent.{pasted, span};
ghost use Rattle.blocks.specs.Numbers.{width, segment_count, first_records};
ghost use Rattle.listing.specs.File.{u32_at, u64_at, units_length, segment_numbers, segment_end, file_numbers_from, FileSized, Records, layout_in, read_into, file_numbers_after};
ghost use Rattle.listing.specs.Says.{file_says};

use blocks::numbers::{Segment, WIDTH, put_record};
use pictures::settings::Settings;

// What a file holds. The picture bytes lie from start to end.
#[derive(Clone, Copy)]
pub struct Layout {
    pub start: usize,
    pub end: usize,
    pub segments: usize,
    pub settings: Settings,
}

impl Layout {
    // The picture bytes of the file.
    #[tactic(auto, unfolding(bitio::specs::Lent::span))]
    pub fn picture(self, file: &[u8]) -> &[u8]
        requires start_first { self.start ≤ self.end }
        requires within { self.end ≤ length file.now }
        ensures { result.now ≡ span file.now self.start self.end }
    {
        &file[self.start..self.end]
    }

    // The numbers of its segments.
    pub fn numbers(self, numbers: &[u64]) -> &[u64]
        requires { width * self.segments ≤ length numbers.now }
        ensures { result.now ≡ first_records self.segments numbers.now }
    {
        &numbers[..WIDTH * self.segments]
    }
}

// Why a file is not read.
#[derive(Clone, Copy)]
pub enum Unread {
    // short, long or unfit
    Bad,
    // no room for the segments' numbers
    Full,
}

// The N bytes at `at`.
fn bytes_at<const N: usize>(file: &[u8], at: usize) -> [u8; N]
    requires { at + N ≤ length file.now }
    ensures { result ≡ take N (drop at file.now) }
{
    *file[at..].first_chunk::<N>().unwrap()
}

fn read_u32(file: &[u8], at: usize) -> u32
    requires { at + 4 ≤ length file.now }
    ensures { result ≡ u32_at file.now at }
{
    u32::from_le_bytes(bytes_at(file, at))
}

fn read_u64(file: &[u8], at: usize) -> u64
    requires { at + 8 ≤ length file.now }
    ensures { result ≡ u64_at file.now at }
{
    u64::from_le_bytes(bytes_at(file, at))
}

// How many bytes the units of so many segments have.
fn units_len(file: &[u8], from: usize, count: usize) -> u64
    requires { Records file.now from count }
    ensures { result ≡ units_length file.now count from }
{
    let mut sum: u64 = 0;
    for i in 0..count {
        let at = from + 16 * i;
        sum += u64::from(read_u32(file, at)) + u64::from(read_u32(file, at + 4));
    }
    sum
}

// The layout of a file whose length is that of its sections.
fn settings(file: &[u8], picture: usize, count: usize) -> Option<Layout>
    requires { FileSized file.now picture count }
    ensures { result ≡ layout_in file.now }
{
    let from = 8 + picture;
    let at = from + 16 * count;
    if read_u32(file, at) != 3 || units_len(file, from, count) != picture as u64 {
        return None;
    }
    Some(Layout {
        start: 4,
        end: 4 + picture,
        segments: count,
        settings: Settings {
            gop: read_u64(file, at + 4),
            fps: u32::try_from(read_u64(file, at + 12)).ok()?,
            den: u32::try_from(read_u64(file, at + 20)).ok()?,
        },
    })
}

// The layout of any bytes that are a file.
fn find(file: &[u8]) -> Option<Layout>
    ensures { result ≡ layout_in file.now }
{
    if file.len() > 65536 {
        return None;
    }
    // the counts and the settings alone have 36 bytes
    let sections = file.len().checked_sub(36)?;
    let picture = read_u32(file, 0) as usize;
    let segments = sections.checked_sub(picture)?;
    let count = read_u32(file, 4 + picture) as usize;
    if segments != 16 * count {
        return None;
    }
    settings(file, picture, count)
}

// Writes the segment at `from`, whose key starts at `start`, as record i, and returns where its golden ends.
fn put_segment(numbers: &mut [u64], i: usize, file: &[u8], from: usize, start: u64) -> u64
    requires room { i < segment_count numbers.old }
    requires there { from + 16 ≤ length file.now }
    requires small { start < 2 ^ 62 }
    ensures value { (result ≡ segment_end file.now from start) × (result < start + 2 ^ 33) }
    ensures numbers_after { numbers.new ≡ pasted numbers.old (width * i) (segment_numbers file.now from start) }
{
    let key = start + u64::from(read_u32(file, from));
    let golden = key + u64::from(read_u32(file, from + 4));
    let frames = read_u64(file, from + 8);
    put_record(
        numbers,
        i,
        Segment {
            key_start: start,
            key_end: key,
            golden_start: key,
            golden_end: golden,
            frames,
        },
    );
    golden
}

// Writes a record for each of the segments that stand at `from`.
#[tactic(auto, using(crate::proofs::NumberLaws::numbering_turn, crate::proofs::NumberLaws::numbering_end))]
fn put_numbers(numbers: &mut [u64], file: &[u8], from: usize, count: usize)
    requires there { Records file.now from count }
    requires room { count ≤ segment_count numbers.old }
    ensures { numbers.new ≡ pasted numbers.old 0 (file_numbers_from file.now count from 0) }
{
    let mut start: u64 = 0;
    for i in 0..count {
        start = put_segment(numbers, i, file, from + 16 * i, start);
    }
}

// Reads a file. Where it is whole and there is room, a record is written for each segment.
pub fn read_file(file: &[u8], numbers: &mut [u64]) -> Result<Layout, Unread>
    ensures answer { file_says result ≡ read_into numbers.old file.now }
    ensures numbers { numbers.new ≡ file_numbers_after numbers.old file.now }
{
    let layout = find(file).ok_or(Unread::Bad)?;
    if numbers.len() / WIDTH < layout.segments {
        return Err(Unread::Full);
    }
    put_numbers(numbers, file, layout.end + 4, layout.segments);
    Ok(layout)
}
