// global_motion_params (AV1 5.9.24), of which nothing is kept.
ghost use Rattle.std.specs.Prelude.{◌≡◌, ◌≤◌, ◌+◌};
ghost use Rattle.bitio.specs.Read.{reading};
ghost use Rattle.syntax.specs.Syntax.{run};
ghost use Rattle.params.specs.Motion as spec;

use bitio::reader::{BitReader, Read};
use syntax::near;
use syntax::turns::times;

// How many numbers lie from - 2^bits to 2^bits: GM_ABS_ALPHA_BITS and GM_ABS_TRANS_BITS are 12, GM_ABS_TRANS_ONLY_BITS is 9,
// one less without allow_high_precision_mv.
const NUMBERS_12: u64 = 8193;

const NUMBERS_9: u64 = 1025;

const NUMBERS_8: u64 = 513;

// b2 of decode_subexp, whose k is 3.
fn subexp_bits(i: usize) -> usize
    requires { i ≤ 16 }
    ensures width { result ≡ spec.subexp_bits i }
    ensures few { result ≤ i + 3 }
{
    if i == 0 { 3 } else { i + 2 }
}

// decode_subexp (AV1 5.9.28).
fn decode_subexp(r: BitReader, s: &[u8], n: u64) -> Read<u64>
    requires { (1 ≤ n) × (n ≤ 16384) }
    ensures { reading result ≡ run (spec.decode_subexp 16 n 0 0) s.now r.pos }
{
    let mut reader = r;
    let mut i: usize = 0;
    let mut mk: u64 = 0;
    // kept: AV1's own loop, which a return ends; a `for` would need a bound, and code behind it that is never reached
    loop {
        let b2 = subexp_bits(i);
        let a = 1u64 << b2;
        if n <= mk + 3 * a {
            let (v, r) = near::ns(reader, s, n - mk)?;
            return Ok((v + mk, r));
        }
        let (more, r) = reader.flag(s)?;
        if !more {
            let (v, r) = r.f(s, b2)?;
            return Ok((v + mk, r));
        }
        i += 1;
        mk += a;
        reader = r;
    }
}

// A parameter of n numbers, where on.
#[tactic(auto, unfolding(syntax::specs::Syntax::run, crate::specs::Motion::read_global_param))]
fn read_global_param(r: BitReader, s: &[u8], on: bool, n: u64) -> Read<u64>
    requires { (1 ≤ n) × (n ≤ 16384) }
    ensures { reading result ≡ run (spec.read_global_param on n) s.now r.pos }
{
    if on {
        decode_subexp(r, s, n)
    } else {
        Ok((0, r))
    }
}

// The parameters of a reference that has motion. fine: allow_high_precision_mv.
#[tactic(auto, unfolding(syntax::specs::Syntax::run, bitio::specs::Fields::read_flag, bitio::specs::Fields::flag_or, crate::specs::Motion::gm_params))]
fn gm_params(r: BitReader, s: &[u8], fine: bool) -> Read<()>
    ensures { reading result ≡ run (spec.gm_params fine) s.now r.pos }
{
    let (is_rot_zoom, r) = r.flag(s)?;
    let (is_translation, r) = r.flag_or(s, !is_rot_zoom, false)?;
    let (_p2, r) = read_global_param(r, s, !is_translation, NUMBERS_12)?;
    let (_p3, r) = read_global_param(r, s, !is_translation, NUMBERS_12)?;
    let is_affine = !(is_rot_zoom || is_translation);
    let (_p4, r) = read_global_param(r, s, is_affine, NUMBERS_12)?;
    let (_p5, r) = read_global_param(r, s, is_affine, NUMBERS_12)?;
    let n = match (is_translation, fine) {
        (false, _) => NUMBERS_12,
        (true, true) => NUMBERS_9,
        (true, false) => NUMBERS_8,
    };
    let (_p0, r) = read_global_param(r, s, true, n)?;
    let (_p1, r) = read_global_param(r, s, true, n)?;
    Ok(((), r))
}

// One reference.
#[tactic(auto, unfolding(syntax::specs::Syntax::run, bitio::specs::Fields::read_flag, bitio::specs::Fields::flag_or, crate::specs::Motion::motion))]
fn motion(r: BitReader, s: &[u8], fine: bool) -> Read<()>
    ensures { reading result ≡ run (spec.motion fine) s.now r.pos }
{
    let (is_global, r) = r.flag(s)?;
    if is_global {
        gm_params(r, s, fine)
    } else {
        Ok(((), r))
    }
}

// on: the frame is no intra frame.
#[tactic(auto, unfolding(syntax::specs::Syntax::run, crate::specs::Motion::global_motion_params))]
pub fn global_motion_params(r: BitReader, s: &[u8], on: bool, fine: bool) -> Read<()>
    ensures { reading result ≡ run (spec.global_motion_params on fine) s.now r.pos }
{
    let n = if on { 7 } else { 0 };
    times(r, n, |r| motion(r, s, fine))
}
