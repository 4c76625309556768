// What is read several times.
ghost use Rattle.std.specs.Prelude.{◌≡◌, ℕ, cond, replicate};
ghost use Rattle.bitio.specs.Bits.{Reading};
ghost use Rattle.bitio.specs.Read.{reading};
ghost use Rattle.syntax.specs.Turns.{Reads, turns, filled};

use bitio::reader::{BitReader, Read};

// n times what f reads, of which nothing is kept.
pub fn times<T: Drop, F: Fn(BitReader) -> Read<T>>(r: BitReader, n: usize, f: F) -> Read<()>
    requires { F.IsAlwaysCallable f }
    ensures { (x : ℕ → Reading T) → Reads (F.post f) x → reading result ≡ turns n x r.pos }
{
    let mut reader = r;
    for _ in 0..n {
        (_, reader) = f(reader)?;
    }
    Ok(((), reader))
}

// N times what f reads, where on; else the other value N times, and no bits.
pub fn array_if<T: Copy, const N: usize, F: Fn(BitReader) -> Read<T>>(
    r: BitReader,
    on: bool,
    other: T,
    f: F,
) -> Read<[T; N]>
    requires { F.IsAlwaysCallable f }
    ensures { (x : ℕ → Reading T) → Reads (F.post f) x → reading result ≡ filled x 0 (cond on N 0) (replicate N other) r.pos }
{
    let mut reader = r;
    let mut items = [other; N];
    let n = if on { N } else { 0 };
    for i in 0..n {
        (items[i], reader) = f(reader)?;
    }
    Ok((items, reader))
}
