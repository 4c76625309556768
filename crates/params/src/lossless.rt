// CodedLossless (AV1 5.9.2).
ghost use Rattle.std.specs.Prelude.{◌≡◌, eqb};
ghost use Rattle.params.specs.Lossless as spec;
ghost use Rattle.params.specs.Lossless.{sign_magnitude};

use crate::quant::Quantizer;

// qindex is 0, for a segment whose SEG_LVL_ALT_Q has these nine bits.
fn index_is_zero(base_q_idx: u64, alt_q: u64) -> bool
    ensures { result ≡ eqb (spec.qindex sign_magnitude base_q_idx alt_q) 0 }
{
    if alt_q < 256 {
        base_q_idx == 0 && alt_q == 0
    } else {
        base_q_idx <= alt_q - 256
    }
}

// Zero has two forms of seven bits.
fn delta_is_zero(v: u64) -> bool
    ensures { result ≡ spec.is_zero sign_magnitude 6 v }
{
    v == 0 || v == 64
}

#[tactic(auto, unfolding(crate::specs::Lossless::no_delta))]
fn no_delta(q: Quantizer) -> bool
    ensures { result ≡ spec.no_delta sign_magnitude q }
{
    delta_is_zero(q.delta_q_y_dc)
        && delta_is_zero(q.delta_q_u_dc)
        && delta_is_zero(q.delta_q_u_ac)
        && delta_is_zero(q.delta_q_v_dc)
        && delta_is_zero(q.delta_q_v_ac)
}

#[tactic(auto, unfolding(crate::specs::Lossless::coded_lossless))]
pub fn coded_lossless(q: Quantizer, alt_q: [u64; 8]) -> bool
    ensures { result ≡ spec.coded_lossless sign_magnitude q alt_q }
{
    no_delta(q) && alt_q.iter().all(|v| index_is_zero(q.base_q_idx, *v))
}
