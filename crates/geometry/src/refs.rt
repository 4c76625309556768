// The references of an inter frame (AV1 5.9.2).
ghost use Rattle.std.specs.Prelude.{◌≡◌};
ghost use Rattle.bitio.specs.Read.{reading};
ghost use Rattle.syntax.specs.Syntax.{run};
ghost use Rattle.geometry.specs.Refs as spec;

use bitio::reader::{BitReader, Read};
use bitio::refusal::Refusal;
use syntax::turns::array_if;

// on: the frame is not intra; else no bits, and every index is 0.
#[tactic(auto, unfolding(syntax::specs::Syntax::run, bitio::specs::Fields::read_flag, bitio::specs::Fields::flag_or, crate::specs::Refs::frame_refs))]
pub fn frame_refs(r: BitReader, s: &[u8], on: bool, enable_order_hint: bool) -> Read<[u64; 7]>
    ensures { reading result ≡ run (spec.frame_refs on enable_order_hint) s.now r.pos }
{
    let (short, r) = r.flag_or(s, on && enable_order_hint, false)?;
    let (_last, r) = r.f_if(s, short, 3)?;
    let (_gold, r) = r.f_if(s, short, 3)?;
    if short {
        return Err(Refusal::ShortSignaling);
    }
    array_if(r, on, 0, |r| r.f(s, 3))
}
