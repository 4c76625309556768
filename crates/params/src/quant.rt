// quantization_params (AV1 5.9.12).
ghost use Rattle.std.specs.Prelude.{◌≡◌, ◌<◌, IfOk};
ghost use Rattle.bitio.specs.Read.{reading};
ghost use Rattle.syntax.specs.Syntax.{run};
ghost use Rattle.params.specs.Quantization as spec;

use bitio::reader::{BitReader, Read};

// Each delta as its seven bits stand.
#[derive(Clone, Copy)]
pub struct Quantizer {
    pub base_q_idx: u64,
    pub delta_q_y_dc: u64,
    pub delta_q_u_dc: u64,
    pub delta_q_u_ac: u64,
    pub delta_q_v_dc: u64,
    pub delta_q_v_ac: u64,
}

// read_delta_q (AV1 5.9.13) where on.
#[tactic(auto, unfolding(syntax::specs::Syntax::run, bitio::specs::Fields::read_flag, bitio::specs::Fields::flag_or, crate::specs::Quantization::read_delta_q))]
pub(crate) fn read_delta_q(r: BitReader, s: &[u8], on: bool) -> Read<u64>
    ensures read { reading result ≡ run (spec.read_delta_q on) s.now r.pos }
    ensures fits { IfOk result (λ x. x.0 < 128) }
{
    let (coded, r) = r.flag_or(s, on, false)?;
    r.f_if(s, coded, 7)
}

// color: more than one plane; apart: separate_uv_delta_q.
#[tactic(auto, unfolding(syntax::specs::Syntax::run, bitio::specs::Fields::read_flag, bitio::specs::Fields::flag_or, crate::specs::Quantization::quantization_params))]
pub fn quantization_params(r: BitReader, s: &[u8], color: bool, apart: bool) -> Read<Quantizer>
    ensures read { reading result ≡ run (spec.quantization_params color apart) s.now r.pos }
    ensures fits { IfOk result (λ x. spec.Ranged x.0) }
{
    let (base_q_idx, r) = r.f(s, 8)?;
    let (delta_q_y_dc, r) = read_delta_q(r, s, true)?;
    let (diff, r) = r.flag_or(s, color && apart, false)?;
    let (delta_q_u_dc, r) = read_delta_q(r, s, color)?;
    let (delta_q_u_ac, r) = read_delta_q(r, s, color)?;
    let (v_dc, r) = read_delta_q(r, s, diff)?;
    let (v_ac, r) = read_delta_q(r, s, diff)?;
    let (matrix, r) = r.flag(s)?;
    let (_qm_y, r) = r.f_if(s, matrix, 4)?;
    let (_qm_u, r) = r.f_if(s, matrix, 4)?;
    let (_qm_v, r) = r.f_if(s, matrix && apart, 4)?;
    let q = Quantizer {
        base_q_idx,
        delta_q_y_dc,
        delta_q_u_dc,
        delta_q_u_ac,
        delta_q_v_dc: if diff { v_dc } else { delta_q_u_dc },
        delta_q_v_ac: if diff { v_ac } else { delta_q_u_ac },
    };
    Ok((q, r))
}
