// The size of a frame (AV1 5.9.5 to 5.9.8).
ghost use Rattle.std.specs.Prelude.{◌≡◌, None};
ghost use Rattle.bitio.specs.Read.{reading};
ghost use Rattle.syntax.specs.Syntax.{run};
ghost use Rattle.syntax.specs.Repeat.{repeat};
ghost use Rattle.geometry.specs.Size as spec;
ghost use Rattle.geometry.specs.code.Sizes.{SizesWithin};

use crate::slots;
use crate::slots::RefSlot;
use bitio::reader::{BitReader, Read};
use header::seq_header::FrameSize;

// What the sequence header says of sizes.
#[derive(Clone, Copy)]
pub struct SizeRules {
    pub largest: FrameSize,
    pub enable_superres: bool,
}

// 32 bits each, so that any value of the type can be scaled. The default is that of no frame.
#[derive(Clone, Copy, Default)]
pub struct Size {
    pub upscaled_width: u32,
    pub frame_width: u32,
    pub frame_height: u32,
    pub render_width: u32,
    pub render_height: u32,
}

// How a frame's size is read.
#[derive(Clone, Copy)]
struct Sizing {
    rules: SizeRules,
    // frame_size_override_flag
    over: bool,
    ghost within: { SizesWithin rules.largest },
}

// z: not scaled yet.
#[tactic(auto, unfolding(syntax::specs::Syntax::run, bitio::specs::Fields::read_flag, bitio::specs::Fields::flag_or, crate::specs::Size::superres_params))]
fn superres_params(r: BitReader, s: &[u8], enabled: bool, z: Size) -> Read<Size>
    ensures { reading result ≡ run (spec.superres_params enabled z) s.now r.pos }
{
    let (scaled, r) = r.flag_or(s, enabled, false)?;
    let (coded, r) = r.f_if(s, scaled, 3)?;
    let denom = if scaled { coded + 9 } else { 8 };
    let size = Size {
        frame_width: ((u64::from(z.upscaled_width) * 8 + denom / 2) / denom) as u32,
        ..z
    };
    Ok((size, r))
}

#[tactic(auto, unfolding(syntax::specs::Syntax::run, crate::specs::Size::frame_size))]
fn frame_size(r: BitReader, s: &[u8], sizing: Sizing) -> Read<Size>
    ensures { reading result ≡ run (spec.frame_size sizing.rules sizing.over) s.now r.pos }
{
    let over = sizing.over;
    let l = sizing.rules.largest;
    let (w, r) = r.f_if(s, over, l.frame_width_bits_minus_1 as usize + 1)?;
    let (h, r) = r.f_if(s, over, l.frame_height_bits_minus_1 as usize + 1)?;
    let width = if over { w } else { l.max_frame_width_minus_1 } as u32 + 1;
    let height = if over { h } else { l.max_frame_height_minus_1 } as u32 + 1;
    let z = Size {
        upscaled_width: width,
        frame_width: width,
        frame_height: height,
        render_width: width,
        render_height: height,
    };
    superres_params(r, s, sizing.rules.enable_superres, z)
}

#[tactic(auto, unfolding(syntax::specs::Syntax::run, bitio::specs::Fields::read_flag, bitio::specs::Fields::flag_or, crate::specs::Size::render_size))]
fn render_size(r: BitReader, s: &[u8], z: Size) -> Read<Size>
    ensures { reading result ≡ run (spec.render_size z) s.now r.pos }
{
    let (differs, r) = r.flag(s)?;
    let (w, r) = r.f_if(s, differs, 16)?;
    let (h, r) = r.f_if(s, differs, 16)?;
    let size = Size {
        render_width: if differs {
            w as u32 + 1
        } else {
            z.upscaled_width
        },
        render_height: if differs {
            h as u32 + 1
        } else {
            z.frame_height
        },
        ..z
    };
    Ok((size, r))
}

#[tactic(auto, unfolding(syntax::specs::Syntax::run, crate::specs::Size::frame_and_render_size))]
fn frame_and_render_size(r: BitReader, s: &[u8], sizing: Sizing) -> Read<Size>
    ensures { reading result ≡ run (spec.frame_and_render_size sizing.rules sizing.over) s.now r.pos }
{
    let (z, r) = frame_size(r, s, sizing)?;
    render_size(r, s, z)
}

// The slot of the first reference that has the frame's size.
fn found_ref(r: BitReader, s: &[u8], refs: [u64; 7]) -> Read<Option<u64>>
    ensures { reading result ≡ run (repeat (spec.found_ref refs) 0 7 None) s.now r.pos }
{
    let mut reader = r;
    for slot in refs {
        let (found, r) = reader.flag(s)?;
        if found {
            return Ok((Some(slot), r));
        }
        reader = r;
    }
    Ok((None, reader))
}

fn slot_size(slot: RefSlot) -> Size
    ensures { result ≡ spec.slot_size slot }
{
    Size {
        frame_width: slot.size.upscaled_width,
        ..slot.size
    }
}

#[tactic(auto, unfolding(syntax::specs::Syntax::run, crate::specs::Size::frame_size_with_refs, crate::specs::Size::size_by_ref))]
fn frame_size_with_refs(
    r: BitReader,
    s: &[u8],
    sizing: Sizing,
    refs: [u64; 7],
    slots: &[RefSlot; 8],
) -> Read<Size>
    ensures { reading result ≡ run (spec.frame_size_with_refs sizing.rules sizing.over refs slots.now) s.now r.pos }
{
    let (found, r) = found_ref(r, s, refs)?;
    match found {
        Some(slot) => {
            let z = slot_size(slots::slot_at(slots, slot));
            superres_params(r, s, sizing.rules.enable_superres, z)
        }
        None => frame_and_render_size(r, s, sizing),
    }
}

// by_refs: frame_size_override_flag is set and the frame is not error resilient.
#[tactic(auto, unfolding(syntax::specs::Syntax::run, crate::specs::Size::frame_geometry))]
pub fn frame_geometry(
    r: BitReader,
    s: &[u8],
    rules: SizeRules,
    over: bool,
    by_refs: bool,
    refs: [u64; 7],
    slots: &[RefSlot; 8],
) -> Read<Size>
    requires { SizesWithin rules.largest }
    ensures { reading result ≡ run (spec.frame_geometry rules over by_refs refs slots.now) s.now r.pos }
{
    let sizing = Sizing { rules, over };
    if by_refs {
        frame_size_with_refs(r, s, sizing, refs, slots)
    } else {
        frame_and_render_size(r, s, sizing)
    }
}
