// What is written of the OBUs in a range of lent bytes, with their delimiters or without.
ghost use Rattle.std.specs.Prelude.{◌≡◌, ◌+◌, ◌-◌, ◌≤◌, length, true, cond as pick};
ghost use Rattle.obu.specs.Obu.{passes};
ghost use Rattle.obu.specs.Place.{extension_says, part};
ghost use Rattle.obu.specs.Write.{obu_length, obu};
ghost use Rattle.bitio.specs.Limits.{limit};
ghost use Rattle.bitio.specs.Lent.{Wrote};
ghost use Rattle.container.specs.code.Ranges.{is_kept, kept_one, Ranged, Measured, Roomy, WroteKept};

use obu::obus::Obus;
use obu::reader::Obu;
use obu::unit::{Kind, is_type};
use obu::writer::{obu_len, put_measured};
use std::ops::Range;

// Whether an OBU of type t is kept.
#[tactic(auto, unfolding(crate::specs::code::Ranges::is_kept))]
fn is_kept(t: u8, keep: bool) -> bool
    ensures { result ≡ is_kept keep t }
{
    keep || !is_type(Kind::TemporalDelimiter, t)
}

// How many bytes an OBU has, written, if it is kept.
pub fn kept_len(o: Obu, keep: bool) -> usize
    requires { (o.start ≤ o.end) × (o.end ≤ limit) }
    ensures { result ≡ pick (is_kept keep o.obu_type) (obu_length (extension_says o.extension) (o.end - o.start)) 0 }
{
    if is_kept(o.obu_type, keep) {
        obu_len(o.extension, o.size())
    } else {
        0
    }
}

// How many bytes the OBUs in a range have, written.
pub fn written_len(s: &[u8], range: Range<usize>, keep: bool) -> usize
    requires { Ranged s.now range.start range.end }
    ensures { Measured s.now range.start range.end keep result }
{
    let mut n: usize = 0;
    for found in Obus::within(s, range) {
        let Ok(o) = found else { return n };
        n += kept_len(o, keep);
    }
    n
}

// Writes an OBU at `to` if it is kept, where its room is known.
fn put_kept(s: &[u8], o: Obu, keep: bool, out: &mut [u8], to: usize) -> usize
    requires { (passes o.obu_type ≡ true) × (to + length (kept_one keep (obu o.obu_type (extension_says o.extension) (part s.now o.start o.end))) ≤ length out.old) }
    ensures { Wrote out.old to (kept_one keep (obu o.obu_type (extension_says o.extension) (part s.now o.start o.end))) result out.new }
{
    if !is_kept(o.obu_type, keep) {
        return to;
    }
    put_measured(out, to, o.obu_type, o.extension, o.payload(s))
}

// Writes the OBUs in a range at `to`, where their room is known.
pub fn put_written(s: &[u8], range: Range<usize>, keep: bool, out: &mut [u8], to: usize) -> usize
    requires { Roomy s.now range.start range.end keep out.old to }
    ensures { WroteKept s.now range.start range.end keep out.old to result out.new }
{
    let mut w = to;
    for found in Obus::within(s, range) {
        let Ok(o) = found else { return w };
        w = put_kept(s, o, keep, out, w);
    }
    w
}
