// Reading a sequence header (AV1 5.5.1) behind the operating points.
ghost use Rattle.std.specs.Prelude.{◌≡◌};
ghost use Rattle.bitio.specs.Read.{reading};
ghost use Rattle.header.specs.SequenceRules.{ours};
ghost use Rattle.header.specs.SequenceCoding.{coding};

use crate::seq_header::Coding;
use crate::seq_header::read_color::{read_color, read_sampling};
use crate::seq_header::read_tools::{read_filters, read_ids, read_screen, read_size, read_tools};
use bitio::reader::{BitReader, Read};

// full: the header is not reduced.
#[tactic(auto, unfolding(crate::specs::SequenceCoding::coding))]
pub(crate) fn read_coding(r: BitReader, s: &[u8], profile: u64, full: bool) -> Read<Coding>
    ensures { reading result ≡ coding ours s.now r.pos profile full }
{
    let (size, r) = read_size(r, s)?;
    let (ids, r) = read_ids(r, s, full)?;
    let (tools, r) = read_tools(r, s, full)?;
    let (screen, r) = read_screen(r, s, full, tools.enable_order_hint)?;
    let (filters, r) = read_filters(r, s)?;
    let (color, r) = read_color(r, s, profile)?;
    let (sampling, r) = read_sampling(r, s, profile, color)?;
    let (film_grain_params_present, r) = r.flag(s)?;
    let coding = Coding {
        size,
        ids,
        tools,
        screen,
        filters,
        color,
        sampling,
        film_grain_params_present,
    };
    Ok((coding, r))
}
