// Packets joined and units made canonical, in lent memory (document 01, 'Units from a stream').
ghost use Rattle.std.specs.Prelude.{◌≡◌, length};
ghost use Rattle.bitio.specs.Parse.{answer};
ghost use Rattle.bitio.specs.Refusal.{says};
ghost use Rattle.container.specs.Limits.{bytes_room};
ghost use Rattle.container.specs.Units.{sizes_of, bytes_after, ends_after, count_of, out_after};
ghost use Rattle.packets.specs.Packets.{canonical_at};
ghost use Rattle.packets.specs.PacketLists.{bytes_of, lent_room, merged_at, times_after};

use crate::packets::canonical::{clean_unit, copy_unit};
use crate::packets::lists::Packets;
use crate::packets::merge::{merge_none, merge_some};
use bitio::limits::check_limit;
use bitio::refusal::Refusal;
use container::lists::Units;
use container::units::Sizes;
use obu::unit::has_stray_delimiter;

mod canonical;
mod lists;
mod merge;
mod pieces;
mod runs;
mod walk;

// Joins packets without a frame to their neighbours: the bytes to out, the end of each packet to out_ends, its time to
// out_times. A refusal changes nothing.
pub fn merge_frameless_packets(
    packets: &[u8],
    packet_ends: &[u32],
    times: &[u64],
    out: &mut [u8],
    out_ends: &mut [u32],
    out_times: &mut [u64],
) -> Result<Sizes, Refusal>
    ensures answer { says result ≡ sizes_of (answer bytes_of (merged_at (lent_room out.old out_ends.old out_times.old) packets.now packet_ends.now times.now)) }
    ensures out { out.new ≡ bytes_after (answer bytes_of (merged_at (lent_room out.old out_ends.old out_times.old) packets.now packet_ends.now times.now)) out.old }
    ensures ends { out_ends.new ≡ ends_after (answer bytes_of (merged_at (lent_room out.old out_ends.old out_times.old) packets.now packet_ends.now times.now)) out_ends.old }
    ensures times { out_times.new ≡ times_after (merged_at (lent_room out.old out_ends.old out_times.old) packets.now packet_ends.now times.now) out_times.old }
{
    check_limit(packets)?;
    if packet_ends.len() != times.len() {
        return Err(Refusal::NotAList);
    }
    let units = Units::new(packets, packet_ends)?;
    let all = Packets { units, times };
    match all.next_close(0) {
        Some(c) => merge_some(all, c, out, out_ends, out_times),
        None => merge_none(all, out, out_ends, out_times),
    }
}

// A unit without the delimiters behind its first place: written anew if there is one, else copied, as is a unit that
// does not parse. A refusal changes nothing.
#[tactic(auto, using(bitio::proofs::LimitLaws::limit_kept))]
pub fn canonicalize_tu(unit: &[u8], out: &mut [u8]) -> Result<usize, Refusal>
    ensures answer { says result ≡ count_of (canonical_at (bytes_room (length out.old)) unit.now) }
    ensures out { out.new ≡ out_after (canonical_at (bytes_room (length out.old)) unit.now) out.old }
{
    check_limit(unit)?;
    if has_stray_delimiter(unit) {
        return clean_unit(unit, out);
    }
    copy_unit(unit, out)
}
