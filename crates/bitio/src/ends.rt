// Byte strings that lie one behind the other, by the u32 end of each: where one starts and ends.
ghost use Rattle.std.specs.Prelude.{◌≡◌, ◌∷◌, get_or};

// Where string i ends; 0 where there is none.
pub fn end_of(ends: &[u32], i: usize) -> usize
    ensures { result ≡ get_or ends.now i 0 }
{
    ends.get(i).map_or(0, |end| *end as usize)
}

// Where string i starts: where the one before it ends, the first at 0.
pub fn start_of(ends: &[u32], i: usize) -> usize
    ensures { result ≡ get_or (0 ∷ ends.now) i 0 }
{
    if i == 0 { 0 } else { end_of(ends, i - 1) }
}
