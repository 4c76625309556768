// The unit list and the cue list, laid out in lent memory in one pass. An entry is four times its segment plus its kind: 0 for
// a key, 1 for a golden, 2 for a show unit; cues count units from 1.
ghost use Rattle.std.specs.Prelude.{◌≡◌, ◌+◌, ◌≤◌, ◌<◌, length};
ghost use Rattle.bitio.specs.Lent.{pasted};
ghost use Rattle.blocks.specs.Blocks.{block, list_of, cues_of, total};
ghost use Rattle.blocks.specs.Numbers.{frames_in};
ghost use Rattle.blocks.specs.code.Steps.{units_left};
ghost use Rattle.blocks.specs.code.Lay.{entries_of, cues_from, block_cue, CanLay, Laid, CanLayAll};

use crate::block::{Block, Blocks};
use crate::numbers::{frames_of, segment_count};

// The kinds of a list's units, by document 01's numbers.
#[derive(Clone, Copy)]
pub enum Kind {
    Key = 0,
    Golden = 1,
    Show = 2,
}

// Writes the entries of a block.
fn put_block(list: &mut [u32], at: usize, segment: u32, b: Block)
    requires room { at + b.size ≤ length list.old }
    requires units { 1 ≤ b.size }
    requires small { segment < 1073741823 }
    ensures { list.new ≡ pasted list.old at (entries_of segment (block b.key b.size)) }
{
    let first = segment * 4;
    if b.size < 2 {
        let kind = if b.key { Kind::Key } else { Kind::Show };
        list[at] = first + kind as u32;
        return;
    }
    list[at] = first + Kind::Key as u32;
    list[at + 1] = first + Kind::Golden as u32;
    list[at + 2..at + b.size].fill(first + Kind::Show as u32);
}

// Writes the cue of a block behind `at` units, if it starts with a key, and returns the place of the next cue.
fn put_cue(cues: &mut [u32], c: usize, at: usize, key: bool) -> usize
    requires room { c + length (block_cue key at) ≤ length cues.old }
    requires small { at < 4294967295 }
    ensures cues { cues.new ≡ pasted cues.old c (block_cue key at) }
    ensures next { result ≡ c + length (block_cue key at) }
{
    if key {
        cues[c] = at as u32 + 1;
        return c + 1;
    }
    c
}

// Writes the entries of a segment behind `at` others, and their cues from c; returns the place of the next cue.
fn put_segment(
    list: &mut [u32],
    cues: &mut [u32],
    at: usize,
    c: usize,
    segment: u32,
    blocks: Blocks,
) -> usize
    requires room { CanLay list.old cues.old at c (entries_of segment (units_left blocks)) }
    requires small { segment < 1073741823 }
    ensures { Laid list.old cues.old list.new cues.new at c result (entries_of segment (units_left blocks)) }
{
    let mut p = at;
    let mut q = c;
    for b in blocks {
        put_block(list, p, segment, b);
        q = put_cue(cues, q, p, b.key);
        p += b.size;
    }
    q
}

// Writes the list and the cues of all segments; returns how many cues.
pub fn put_list(list: &mut [u32], cues: &mut [u32], gop: u64, segments: &[u64]) -> usize
    requires { CanLayAll list.old cues.old gop segments.now }
    ensures { Laid list.old cues.old list.new cues.new 0 0 result (list_of gop (frames_in segments.now)) }
{
    let mut at: usize = 0;
    let mut c: usize = 0;
    for i in 0..segment_count(segments) {
        let frames = frames_of(segments, i) as usize;
        let blocks = Blocks::new(gop as usize, frames);
        c = put_segment(list, cues, at, c, i as u32, blocks);
        at += frames;
    }
    c
}

// How many cues a segment has, with nothing laid out.
fn count_segment(blocks: Blocks) -> usize
    ensures { result ≡ length (cues_from 0 (entries_of 0 (units_left blocks))) }
{
    let mut count: usize = 0;
    for b in blocks {
        count += usize::from(b.key);
    }
    count
}

// How many cues all segments have. Their entries are as many as their frames.
pub fn count_cues(gop: u64, segments: &[u64]) -> usize
    requires gop { 1 ≤ gop }
    requires small { total (frames_in segments.now) ≤ 5000000 }
    ensures { result ≡ length (cues_of (list_of gop (frames_in segments.now))) }
{
    let mut n: usize = 0;
    for i in 0..segment_count(segments) {
        let frames = frames_of(segments, i) as usize;
        n += count_segment(Blocks::new(gop as usize, frames));
    }
    n
}
