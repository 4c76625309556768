// ns(n) (AV1 4.10.7).
ghost use Rattle.std.specs.Prelude.{◌≡◌, ◌≤◌, ◌<◌, ◌^◌, IfOk};
ghost use Rattle.bitio.specs.Read.{reading};
ghost use Rattle.syntax.specs.Syntax.{run};
ghost use Rattle.syntax.specs.Near as spec;

use bitio::reader::{BitReader, Read};
use bitio::writer;

#[tactic(auto, unfolding(crate::specs::Syntax::run, crate::specs::Near::ns))]
pub fn ns(r: BitReader, s: &[u8], n: u64) -> Read<u64>
    requires { (1 ≤ n) × (n ≤ 2 ^ 32) }
    ensures read { reading result ≡ run (spec.ns n) s.now r.pos }
    ensures fits { IfOk result (λ x. x.0 < 2 ^ 34) }
{
    let z = writer::log2(n);
    let m = (2u64 << z) - n;
    let (v, r) = r.f(s, z)?;
    if v < m {
        return Ok((v, r));
    }
    let (extra, r) = r.f(s, 1)?;
    Ok((2 * v - m + extra, r))
}
