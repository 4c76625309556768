// Lists of units in lent memory.
ghost use Rattle.std.specs.Prelude.{◌≡◌, ◌≤◌, ◌<◌, ◌∷◌, length, get_or, true};
ghost use Rattle.container.specs.Lists.{accepts, unit_of};
ghost use Rattle.container.specs.Units.{units_at};

use bitio::ends::{end_of, start_of};
use bitio::refusal::Refusal;
use std::ops::Range;

// Units, their bytes one behind the other and the u32 end of each. The ends never fall, and the last (0 if there is none)
// is the byte count.
#[derive(Clone, Copy)]
pub struct Units<'a> {
    pub bytes: &'a [u8],
    pub ends: &'a [u32],
    pub ghost is_list: { accepts (units_at bytes.now ends.now) ≡ true },
}

impl<'a> Units<'a> {
    ghost use Rattle.container.specs.Listed.{Listed};

    // 36: the ends make no list.
    pub fn new(bytes: &'a [u8], ends: &'a [u32]) -> Result<Units<'a>, Refusal>
        ensures { Listed bytes.now ends.now result }
    {
        // where the next unit starts; the first end that falls, or lies behind the bytes, decides
        let mut at = 0;
        for end in ends {
            let end = *end as usize;
            if end < at || end > bytes.len() {
                return Err(Refusal::NotAList);
            }
            at = end;
        }
        if at != bytes.len() {
            return Err(Refusal::NotAList);
        }
        Ok(Units { bytes, ends })
    }

    pub fn count(self) -> usize
        ensures { result ≡ length self.entry.ends.now }
    {
        self.ends.len()
    }

    // Unit i, not copied; nothing where there is none.
    pub fn unit(self, i: usize) -> &'a [u8]
        ensures { result.now ≡ unit_of self.entry.bytes.now self.entry.ends.now i }
    {
        if i >= self.count() {
            return &self.bytes[..0];
        }
        &self.bytes[self.range(i)]
    }

    // Where unit i lies.
    fn range(self, i: usize) -> Range<usize>
        requires { i < length self.ends.now }
        ensures start { result.start ≡ get_or (0 ∷ self.entry.ends.now) i 0 }
        ensures end { result.end ≡ get_or self.entry.ends.now i 0 }
        ensures within { (result.start ≤ result.end) × (result.end ≤ length self.entry.bytes.now) }
    {
        start_of(self.ends, i)..end_of(self.ends, i)
    }
}
