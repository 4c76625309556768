// The OBUs of lent bytes, one behind the other.
ghost use Rattle.std.specs.Prelude.{min, length};
ghost use Rattle.obu.specs.Walk.{Walks};

use crate::reader::{Obu, obu_at};
use bitio::refusal::Refusal;
use std::ops::Range;

// The OBUs from `at` on that begin before `end`; behind the last there are none, nor behind a refusal.
#[derive(Clone, Copy)]
pub struct Obus<'a> {
    bytes: &'a [u8],
    at: usize,
    end: usize,
}

impl<'a> Obus<'a> {
    // All OBUs of s.
    pub fn new(s: &'a [u8]) -> Obus<'a>
        ensures { Walks result s.now 0 (length s.now) }
    {
        Obus {
            bytes: s,
            at: 0,
            end: s.len(),
        }
    }

    // Those that begin in a range of s.
    pub fn within(s: &'a [u8], range: Range<usize>) -> Obus<'a>
        ensures { Walks result s.now range.start (min range.end (length s.now)) }
    {
        Obus {
            bytes: s,
            at: range.start,
            end: range.end.min(s.len()),
        }
    }
}

impl<'a> Iterator for Obus<'a> {
    ghost use Rattle.obu.specs.Walk.{GivesObu, bytes_left};

    type Item = Result<Obu, Refusal>;

    ghost next_gives = { GivesObu };

    ghost remaining = { bytes_left };

    fn next(&mut self) -> Option<Result<Obu, Refusal>> {
        if self.at >= self.end {
            return None;
        }
        let found = obu_at(self.bytes, self.at).transpose()?;
        self.at = found.map_or(self.end, |o| o.end);
        Some(found)
    }
}
