// tile_info (AV1 5.9.15), of which nothing is kept.
ghost use Rattle.std.specs.Prelude.{◌≡◌, ◌≤◌, ◌^◌, IfOk};
ghost use Rattle.bitio.specs.Read.{reading};
ghost use Rattle.syntax.specs.Syntax.{run};
ghost use Rattle.geometry.specs.Tiles as spec;

use crate::size::Size;
use crate::tile_limits;
use crate::tile_limits::{TileLimits, tile_log2};
use bitio::reader::{BitReader, Read};
use bitio::refusal::Refusal;
use syntax::near;

// Columns or rows whose sizes were read: where the next starts, the widest, and how many.
#[derive(Clone, Copy)]
pub struct Tiles {
    pub start_sb: u64,
    pub widest_sb: u64,
    pub count: u64,
}

#[derive(Clone, Copy)]
pub struct TileLogs {
    pub cols_log2: u32,
    pub rows_log2: u32,
}

fn increments(r: BitReader, s: &[u8], least: u32, most: u32) -> Read<u32>
    ensures { reading result ≡ run (spec.increments least most) s.now r.pos }
{
    let mut reader = r;
    for log2 in least..most {
        let (more, r) = reader.flag(s)?;
        if !more {
            return Ok((log2, r));
        }
        reader = r;
    }
    Ok((least.max(most), reader))
}

fn tile_sizes(r: BitReader, s: &[u8], sbs: u32, most: u64) -> Read<Tiles>
    requires { 1 ≤ most }
    ensures read { reading result ≡ run (spec.tile_sizes sbs most) s.now r.pos }
    ensures few { IfOk result (λ x. x.0.count ≤ sbs) }
{
    let mut reader = r;
    let mut t = Tiles {
        start_sb: 0,
        widest_sb: 0,
        count: 0,
    };
    let end = sbs as u64;
    // kept: AV1's own loop, which goes on by what was read
    while t.start_sb < end {
        let (size_minus_1, r) = near::ns(reader, s, (end - t.start_sb).min(most))?;
        let size_sb = size_minus_1 + 1;
        t.start_sb += size_sb;
        t.widest_sb = t.widest_sb.max(size_sb);
        t.count += 1;
        reader = r;
    }
    Ok((t, reader))
}

#[tactic(auto, unfolding(syntax::specs::Syntax::run, crate::specs::Tiles::uniform_tiles))]
fn uniform_tiles(r: BitReader, s: &[u8], l: TileLimits) -> Read<TileLogs>
    ensures { reading result ≡ run (spec.uniform_tiles l) s.now r.pos }
{
    let (cols_log2, r) = increments(r, s, l.min_log2_tile_cols, l.max_log2_tile_cols)?;
    let least = l.min_log2_tiles.saturating_sub(cols_log2);
    let (rows_log2, r) = increments(r, s, least, l.max_log2_tile_rows)?;
    Ok((
        TileLogs {
            cols_log2,
            rows_log2,
        },
        r,
    ))
}

#[tactic(auto, unfolding(syntax::specs::Syntax::run, crate::specs::Tiles::explicit_tiles))]
fn explicit_tiles(r: BitReader, s: &[u8], l: TileLimits) -> Read<TileLogs>
    requires { 1 ≤ l.max_tile_width_sb }
    ensures { reading result ≡ run (spec.explicit_tiles l) s.now r.pos }
{
    let (cols, r) = tile_sizes(r, s, l.sb_cols, l.max_tile_width_sb)?;
    if cols.widest_sb == 0 {
        return Err(Refusal::BitsRunOut);
    }
    let max_height = (l.max_tile_area / cols.widest_sb).max(1);
    let (rows, r) = tile_sizes(r, s, l.sb_rows, max_height)?;
    let logs = TileLogs {
        cols_log2: tile_log2(1, cols.count),
        rows_log2: tile_log2(1, rows.count),
    };
    Ok((logs, r))
}

#[tactic(auto, unfolding(syntax::specs::Syntax::run, crate::specs::Tiles::tile_logs))]
fn tile_logs(r: BitReader, s: &[u8], uniform: bool, l: TileLimits) -> Read<TileLogs>
    requires { 1 ≤ l.max_tile_width_sb }
    ensures { reading result ≡ run (spec.tile_logs uniform l) s.now r.pos }
{
    if uniform {
        uniform_tiles(r, s, l)
    } else {
        explicit_tiles(r, s, l)
    }
}

#[tactic(auto, unfolding(syntax::specs::Syntax::run, bitio::specs::Fields::read_flag, bitio::specs::Fields::flag_or, crate::specs::Tiles::tile_info))]
pub fn tile_info(r: BitReader, s: &[u8], z: Size, use_128x128: bool) -> Read<()>
    ensures { reading result ≡ run (spec.tile_info z use_128x128) s.now r.pos }
{
    let l = tile_limits::tile_limits(z, use_128x128);
    let (uniform, r) = r.flag(s)?;
    let (logs, r) = tile_logs(r, s, uniform, l)?;
    let several = logs.cols_log2 > 0 || logs.rows_log2 > 0;
    let (_id, r) = r.f_if(
        s,
        several,
        logs.cols_log2 as usize + logs.rows_log2 as usize,
    )?;
    let (_bytes, r) = r.f_if(s, several, 2)?;
    Ok(((), r))
}
