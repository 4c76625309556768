// lr_params (AV1 5.9.20), of which nothing is kept.
ghost use Rattle.std.specs.Prelude.{◌≡◌};
ghost use Rattle.bitio.specs.Read.{reading};
ghost use Rattle.syntax.specs.Syntax.{run};
ghost use Rattle.params.specs.Restoration as spec;

use bitio::reader::{BitReader, Read};

// What lr_params goes by.
#[derive(Clone, Copy)]
pub struct Restoration {
    // neither all lossless nor intra block copy, and enable_restoration
    pub on: bool,
    // more than one plane
    pub color: bool,
    pub use_128x128_superblock: bool,
    // chroma has half the width and half the height
    pub subsampled: bool,
}

#[tactic(auto, unfolding(syntax::specs::Syntax::run, bitio::specs::Fields::read_flag, bitio::specs::Fields::flag_or, crate::specs::Restoration::lr_params))]
pub fn lr_params(r: BitReader, s: &[u8], x: Restoration) -> Read<()>
    ensures { reading result ≡ run (spec.lr_params x) s.now r.pos }
{
    let (y, r) = r.f_if(s, x.on, 2)?;
    let (u, r) = r.f_if(s, x.on && x.color, 2)?;
    let (v, r) = r.f_if(s, x.on && x.color, 2)?;
    let uses_chroma_lr = !(u == 0 && v == 0);
    let uses_lr = y != 0 || uses_chroma_lr;
    let (shift, r) = r.flag_or(s, uses_lr, false)?;
    let (_extra, r) = r.flag_or(s, shift && !x.use_128x128_superblock, false)?;
    let (_uv_shift, r) = r.flag_or(s, x.subsampled && uses_chroma_lr, false)?;
    Ok(((), r))
}
