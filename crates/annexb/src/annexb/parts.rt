// The sized parts of bytes one behind the other: the units, the frame units of a unit, the OBUs of a frame unit.
use crate::annexb::part::first_unit;

// Those of what is left. They end at the first fault too, whose number nothing is told of: units, frame units and OBUs with a
// length differ in that number alone.
#[derive(Clone, Copy)]
pub(crate) struct Parts<'a> {
    rest: &'a [u8],
}

impl<'a> Parts<'a> {
    ghost use Rattle.std.specs.Prelude.{◌≡◌};

    pub(crate) fn new(s: &'a [u8]) -> Parts<'a>
        ensures { result.rest.now ≡ s.now }
    {
        Parts { rest: s }
    }
}

impl<'a> Iterator for Parts<'a> {
    ghost use Rattle.annexb.specs.code.Parts.{GivesPart, bytes_left};

    type Item = &'a [u8];

    ghost next_gives = { GivesPart };

    ghost remaining = { bytes_left };

    fn next(&mut self) -> Option<&'a [u8]> {
        let (part, rest) = first_unit(self.rest).ok()?;
        self.rest = rest;
        Some(part)
    }
}
