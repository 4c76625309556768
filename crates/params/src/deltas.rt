// delta_q_params and delta_lf_params (AV1 5.9.17, 5.9.18).
ghost use Rattle.std.specs.Prelude.{◌≡◌};
ghost use Rattle.bitio.specs.Read.{reading};
ghost use Rattle.syntax.specs.Syntax.{run};
ghost use Rattle.params.specs.Deltas as spec;

use bitio::reader::{BitReader, Read};

// delta_q_present is kept.
#[tactic(auto, unfolding(syntax::specs::Syntax::run, bitio::specs::Fields::read_flag, bitio::specs::Fields::flag_or, crate::specs::Deltas::delta_q_params))]
pub fn delta_q_params(r: BitReader, s: &[u8], base_q_idx: u64) -> Read<bool>
    ensures { reading result ≡ run (spec.delta_q_params base_q_idx) s.now r.pos }
{
    let (present, r) = r.flag_or(s, base_q_idx != 0, false)?;
    let (_res, r) = r.f_if(s, present, 2)?;
    Ok((present, r))
}

// on: delta_q_present, and no intra block copy.
#[tactic(auto, unfolding(syntax::specs::Syntax::run, bitio::specs::Fields::read_flag, bitio::specs::Fields::flag_or, crate::specs::Deltas::delta_lf_params))]
pub fn delta_lf_params(r: BitReader, s: &[u8], on: bool) -> Read<()>
    ensures { reading result ≡ run (spec.delta_lf_params on) s.now r.pos }
{
    let (present, r) = r.flag_or(s, on, false)?;
    let (_res, r) = r.f_if(s, present, 2)?;
    let (_multi, r) = r.flag_or(s, present, false)?;
    Ok(((), r))
}
