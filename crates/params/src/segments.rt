// segmentation_params (AV1 5.9.14), of which SEG_LVL_ALT_Q of each segment is kept, as its nine bits stand; 0 where it is not enabled.
ghost use Rattle.std.specs.Prelude.{◌≡◌};
ghost use Rattle.bitio.specs.Read.{reading};
ghost use Rattle.syntax.specs.Syntax.{run};
ghost use Rattle.params.specs.Segmentation as spec;

use bitio::reader::{BitReader, Read};
use syntax::turns::array_if;

#[tactic(auto, unfolding(syntax::specs::Syntax::run, bitio::specs::Fields::read_flag, bitio::specs::Fields::flag_or, crate::specs::Segmentation::feature))]
fn feature(r: BitReader, s: &[u8], bits: usize) -> Read<u64>
    ensures { reading result ≡ run (spec.feature bits) s.now r.pos }
{
    let (enabled, r) = r.flag(s)?;
    r.f_if(s, enabled, bits)
}

// The eight features of a segment, of which SEG_LVL_ALT_Q is kept.
#[tactic(auto, unfolding(syntax::specs::Syntax::run, crate::specs::Segmentation::segment))]
fn segment(r: BitReader, s: &[u8]) -> Read<u64>
    ensures { reading result ≡ run spec.segment s.now r.pos }
{
    let (alt_q, r) = feature(r, s, 9)?;
    let (_lf_y_v, r) = feature(r, s, 7)?;
    let (_lf_y_h, r) = feature(r, s, 7)?;
    let (_lf_u, r) = feature(r, s, 7)?;
    let (_lf_v, r) = feature(r, s, 7)?;
    let (_reference, r) = feature(r, s, 3)?;
    let (_skip, r) = feature(r, s, 0)?;
    let (_global, r) = feature(r, s, 0)?;
    Ok((alt_q, r))
}

// none: primary_ref_frame is PRIMARY_REF_NONE.
#[tactic(auto, unfolding(syntax::specs::Syntax::run, bitio::specs::Fields::read_flag, bitio::specs::Fields::flag_or, crate::specs::Segmentation::segmentation_params))]
pub fn segmentation_params(r: BitReader, s: &[u8], none: bool) -> Read<[u64; 8]>
    ensures { reading result ≡ run (spec.segmentation_params none) s.now r.pos }
{
    let (enabled, r) = r.flag(s)?;
    let told = enabled && !none;
    let (map, r) = r.flag_or(s, told, false)?;
    let (_temporal, r) = r.flag_or(s, map, false)?;
    let (data, r) = r.flag_or(s, told, false)?;
    array_if(r, enabled && (none || data), 0, |r| segment(r, s))
}
