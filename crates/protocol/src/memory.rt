// Byte strings and numbers as fields and answers have them: byte strings one behind the other, each with its end.
ghost use Rattle.std.specs.Prelude.{◌≡◌, get_or};

// Memory to be filled with them.
#[derive(Drop)]
pub struct Memory<'a, 'b, 'c> {
    pub bytes: &'a mut [u8],
    pub ends: &'b mut [u32],
    pub numbers: &'c mut [u64],
}

pub fn number_at(numbers: &[u64], i: usize) -> u64
    ensures { result ≡ get_or numbers.now i 0 }
{
    numbers.get(i).copied().unwrap_or(0)
}
