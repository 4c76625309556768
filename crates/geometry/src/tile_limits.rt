// How many tiles a frame may have (AV1 5.9.9 compute_image_size, and 5.9.15 tile_info up to its first bit).
ghost use Rattle.std.specs.Prelude.{◌≡◌, ◌≤◌, ◌^◌};
ghost use Rattle.geometry.specs.TileLimits as spec;
ghost use Rattle.geometry.specs.TileBounds.{LimitsFit};

use crate::size::Size;

const MAX_TILE_WIDTH: u64 = 4096;

const MAX_TILE_AREA: u64 = 4096 * 2304;

const MAX_TILE_COLS: u32 = 64;

const MAX_TILE_ROWS: u32 = 64;

// In superblocks, and logarithms of numbers of tiles.
#[derive(Clone, Copy)]
pub struct TileLimits {
    pub sb_cols: u32,
    pub sb_rows: u32,
    pub max_tile_width_sb: u64,
    pub max_tile_area: u64,
    pub min_log2_tile_cols: u32,
    pub max_log2_tile_cols: u32,
    pub max_log2_tile_rows: u32,
    pub min_log2_tiles: u32,
}

fn superblocks(n: u32, use_128x128: bool) -> u32
    ensures gives { result ≡ spec.superblocks n use_128x128 }
    ensures few { result ≤ 2 ^ 26 }
{
    let mi = 2 * n.div_ceil(8);
    if use_128x128 {
        mi.div_ceil(32)
    } else {
        mi.div_ceil(16)
    }
}

// The least k for which blk << k is target or more.
pub fn tile_log2(blk: u64, target: u64) -> u32
    requires { (1 ≤ blk) × (target ≤ 2 ^ 52) }
    ensures gives { result ≡ spec.tile_log2 blk target }
    ensures few { result ≤ 52 }
{
    let mut size = blk;
    let mut k: u32 = 0;
    // kept: AV1's own loop, which doubles; its number of turns is the answer
    while size < target {
        size = 2 * size;
        k += 1;
    }
    k
}

#[tactic(auto, unfolding(crate::specs::TileLimits::limits_for))]
fn limits_for(sb_cols: u32, sb_rows: u32, sb_size: u32) -> TileLimits
    requires { ((sb_cols ≤ 2 ^ 26) × (sb_rows ≤ 2 ^ 26)) × (sb_size ≤ 7) }
    ensures gives { result ≡ spec.limits_for sb_cols sb_rows sb_size }
    ensures fits { LimitsFit result }
{
    let sbs = u64::from(sb_rows) * u64::from(sb_cols);
    let max_tile_width_sb = MAX_TILE_WIDTH >> sb_size;
    let min_log2_tile_cols = tile_log2(max_tile_width_sb, u64::from(sb_cols));
    let min_log2_tiles = min_log2_tile_cols.max(tile_log2(MAX_TILE_AREA >> (2 * sb_size), sbs));
    TileLimits {
        sb_cols,
        sb_rows,
        max_tile_width_sb,
        max_tile_area: if min_log2_tiles > 0 {
            sbs >> (min_log2_tiles + 1)
        } else {
            sbs
        },
        min_log2_tile_cols,
        max_log2_tile_cols: tile_log2(1, u64::from(sb_cols.min(MAX_TILE_COLS))),
        max_log2_tile_rows: tile_log2(1, u64::from(sb_rows.min(MAX_TILE_ROWS))),
        min_log2_tiles,
    }
}

#[tactic(auto, unfolding(crate::specs::TileLimits::tile_limits))]
pub fn tile_limits(z: Size, use_128x128: bool) -> TileLimits
    ensures gives { result ≡ spec.tile_limits z use_128x128 }
    ensures fits { LimitsFit result }
{
    let sb_cols = superblocks(z.frame_width, use_128x128);
    let sb_rows = superblocks(z.frame_height, use_128x128);
    limits_for(sb_cols, sb_rows, if use_128x128 { 7 } else { 6 })
}
