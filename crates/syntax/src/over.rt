// Fields whose width a number tells, one less than it, and fields of which nothing is kept.
ghost use Rattle.std.specs.Prelude.{◌≡◌, true, ◌+◌, cond};
ghost use Rattle.bitio.specs.Bits.{read_bits, reads};
ghost use Rattle.bitio.specs.Read.{reading};
ghost use Rattle.syntax.specs.Syntax.{run, field, read_over};
ghost use Rattle.syntax.specs.Repeat.{times};

use crate::turns::times;
use bitio::reader::{BitReader, Read};

// less + 1 bits where on. The bits run out for any width above 64.
pub fn width_if(r: BitReader, s: &[u8], on: bool, less: u64) -> Read<u64>
    ensures { reading result ≡ cond on (read_bits s.now r.pos (less + 1)) (reads 0 r.pos) }
{
    r.f_if(s, on, less.min(64) as usize + 1)
}

// n fields of less + 1 bits.
pub fn read_over(r: BitReader, s: &[u8], less: u64, n: usize) -> Read<()>
    ensures { reading result ≡ run (times n (field true (less + 1) (λ v. read_over))) s.now r.pos }
{
    times(r, n, |r| width_if(r, s, true, less))
}
