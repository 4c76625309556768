// loop_filter_params (AV1 5.9.11), of which nothing is kept.
ghost use Rattle.std.specs.Prelude.{◌≡◌};
ghost use Rattle.bitio.specs.Read.{reading};
ghost use Rattle.syntax.specs.Syntax.{run};
ghost use Rattle.params.specs.LoopFilter as spec;

use crate::quant;
use bitio::reader::{BitReader, Read};
use syntax::turns::times;

// on: neither lossless nor intra block copy; color: more than one plane.
#[tactic(auto, unfolding(syntax::specs::Syntax::run, bitio::specs::Fields::read_flag, bitio::specs::Fields::flag_or, crate::specs::LoopFilter::loop_filter_params))]
pub fn loop_filter_params(r: BitReader, s: &[u8], on: bool, color: bool) -> Read<()>
    ensures { reading result ≡ run (spec.loop_filter_params on color) s.now r.pos }
{
    let (level_0, r) = r.f_if(s, on, 6)?;
    let (level_1, r) = r.f_if(s, on, 6)?;
    let chroma = color && !(level_0 == 0 && level_1 == 0);
    let (_level_2, r) = r.f_if(s, chroma, 6)?;
    let (_level_3, r) = r.f_if(s, chroma, 6)?;
    let (_sharpness, r) = r.f_if(s, on, 3)?;
    let (enabled, r) = r.flag_or(s, on, false)?;
    let (update, r) = r.flag_or(s, enabled, false)?;
    let n = if update { 10 } else { 0 };
    times(r, n, |r| quant::read_delta_q(r, s, true))
}
