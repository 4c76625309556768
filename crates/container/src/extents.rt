// Where the units of a stream lie in its bytes.
ghost use Rattle.std.specs.Prelude.{◌≡◌, ℕ, ◌+◌, ◌<◌, length};
ghost use Rattle.obu.specs.Place.{obu_place};
ghost use Rattle.container.specs.Stream.{behind_obu};
ghost use Rattle.container.specs.code.Extents.{Frames, ToFrame, ToNext, FirstUnit};

use obu::reader::obu_at;
use obu::unit::{Kind, is_type};
use std::ops::Range;

// A unit is written as the OBUs in `lead`, then those in `obus` that are no delimiters.
#[derive(Drop)]
pub(crate) struct Extent {
    pub(crate) lead: Range<usize>,
    pub(crate) obus: Range<usize>,
}

// The delimiter that leads the unit, and the end of the next frame.
// kept: a cursor, as the answer and the test of the first OBU say where an OBU begins, which the walk over OBUs does not give
fn to_frame(s: &[u8], at: usize) -> (Range<usize>, usize)
    requires { (n : ℕ) × Frames s.now at (n + 1) }
    ensures { ToFrame s.now at result.0.start result.0.end result.1 }
{
    let mut p = at;
    let mut lead = at..at;
    let mut is_led = false;
    while let Ok(Some(o)) = obu_at(s, p) {
        if is_type(Kind::Frame, o.obu_type) {
            return (lead, o.end);
        }
        if !is_led && is_type(Kind::TemporalDelimiter, o.obu_type) {
            lead = p..o.end;
            is_led = p == at;
        }
        p = o.end;
    }
    (lead, p)
}

// Where the next unit opens, behind a frame.
// kept: as above
fn to_next(s: &[u8], at: usize) -> usize
    requires { (n : ℕ) × Frames s.now at n }
    ensures { ToNext s.now at result }
{
    let mut p = at;
    while let Ok(Some(o)) = obu_at(s, p) {
        if is_type(Kind::TemporalDelimiter, o.obu_type) || is_type(Kind::Frame, o.obu_type) {
            return p;
        }
        p = o.end;
    }
    p
}

// Where the OBU at `at` ends, or `at` if there is none.
pub fn obu_end(s: &[u8], at: usize) -> usize
    ensures { result ≡ behind_obu at (obu_place s.now at) }
{
    match obu_at(s, at) {
        Ok(Some(o)) => o.end,
        _ => at,
    }
}

// The extent of the unit that begins at `at`, `left` frames being left.
fn next_unit(s: &[u8], at: usize, left: usize) -> Extent
    requires { (at < length s.now) × Frames s.now at left }
    ensures { FirstUnit s.now at left result.lead.start result.lead.end result.obus.start result.obus.end }
{
    let len = s.len();
    if left == 0 {
        return Extent {
            lead: at..len,
            obus: len..len,
        };
    }
    let (lead, behind) = to_frame(s, at);
    let next = to_next(s, behind);
    if left >= 2 {
        return Extent {
            lead,
            obus: at..next,
        };
    }
    if lead.start < lead.end {
        return Extent {
            lead,
            obus: at..len,
        };
    }
    Extent {
        lead: next..obu_end(s, next),
        obus: at..len,
    }
}

// The units of a stream from `at` on, by where they lie.
#[derive(Clone, Copy)]
pub(crate) struct Extents<'a> {
    bytes: &'a [u8],
    at: usize,
    // how many frames are left
    frames: usize,
}

impl<'a> Extents<'a> {
    ghost use Rattle.container.specs.code.Walk.{Walks};

    // All units of a stream that has so many frames.
    pub(crate) fn new(bytes: &'a [u8], frames: usize) -> Extents<'a>
        ensures { Walks result bytes.now 0 frames }
    {
        Extents {
            bytes,
            at: 0,
            frames,
        }
    }
}

impl<'a> Iterator for Extents<'a> {
    ghost use Rattle.container.specs.code.Walk.{CanGive, GivesExtent, bytes_left};

    type Item = Extent;

    ghost can_next = { CanGive };

    ghost next_gives = { GivesExtent };

    ghost remaining = { bytes_left };

    fn next(&mut self) -> Option<Extent> {
        if self.at >= self.bytes.len() {
            return None;
        }
        let x = next_unit(self.bytes, self.at, self.frames);
        self.at = x.obus.end;
        self.frames = self.frames.saturating_sub(1);
        Some(x)
    }
}
