// cdef_params (AV1 5.9.19), of which nothing is kept.
ghost use Rattle.std.specs.Prelude.{◌≡◌};
ghost use Rattle.bitio.specs.Read.{reading};
ghost use Rattle.syntax.specs.Syntax.{run};
ghost use Rattle.params.specs.Cdef as spec;

use bitio::reader::{BitReader, Read};
use syntax::turns::times;

#[tactic(auto, unfolding(syntax::specs::Syntax::run, crate::specs::Cdef::strengths))]
fn strengths(r: BitReader, s: &[u8], color: bool) -> Read<()>
    ensures { reading result ≡ run (spec.strengths color) s.now r.pos }
{
    let (_y_pri, r) = r.f(s, 4)?;
    let (_y_sec, r) = r.f(s, 2)?;
    let (_uv_pri, r) = r.f_if(s, color, 4)?;
    let (_uv_sec, r) = r.f_if(s, color, 2)?;
    Ok(((), r))
}

// on: neither lossless nor intra block copy, and enable_cdef; color: more than one plane.
#[tactic(auto, unfolding(syntax::specs::Syntax::run, crate::specs::Cdef::cdef_params))]
pub fn cdef_params(r: BitReader, s: &[u8], on: bool, color: bool) -> Read<()>
    ensures { reading result ≡ run (spec.cdef_params on color) s.now r.pos }
{
    let (_damping, r) = r.f_if(s, on, 2)?;
    let (bits, r) = r.f_if(s, on, 2)?;
    let n = if on { 1usize << bits } else { 0 };
    times(r, n, |r| strengths(r, s, color))
}
