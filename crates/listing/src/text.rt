// The text that boardlist prints: a list of units, or why there is none.
// kept: the new form is no plainer: nothing is written where a listing has no room, so all is measured first, and a writer over
// the slice for `fmt` would have to be proved beside it
ghost use Rattle.std.specs.Prelude.{◌≡◌, ◌+◌, ◌≤◌, length, leb};
ghost use Rattle.bitio.specs.Lent.{Wrote, placed, lent};
ghost use Rattle.bitio.specs.Refusal.{says};
ghost use Rattle.listing.specs.Text.{letter, slot_in, slot_field, line_in, lines_in, listing_in, refused_text, refused_in_text, fault_text, unread_text};

use crate::decimal::{decimal_len, put_counted, put_field};
use crate::file::Unread;
use assemble::unit::UnitList;
use bitio::refusal::Refusal;
use obu::writer::put_bytes;
use pictures::fault::Fault;

// K for a key, G for a golden, S for a show.
fn letter_of(entry: u32) -> u8
    ensures { result ≡ letter entry }
{
    match entry % 4 {
        0 => b'K',
        1 => b'G',
        _ => b'S',
    }
}

// The slot that a segment's show unit names.
fn slot_of(shows: &[u8], segment: usize) -> u64
    requires { segment ≤ 1073741823 }
    ensures { result ≡ slot_in shows.now segment }
{
    shows
        .get(5 * segment + 4)
        .map_or(0, |byte| u64::from(*byte) / 16 % 8)
}

fn slot_len(shows: &[u8], entry: u32) -> usize
    ensures { (result ≡ length (slot_field shows.now entry)) × (result ≤ 21) }
{
    if entry % 4 == 0 {
        2
    } else {
        decimal_len(slot_of(shows, (entry / 4) as usize)) + 1
    }
}

fn put_slot(out: &mut [u8], at: usize, shows: &[u8], entry: u32) -> usize
    requires { at + length (slot_field shows.now entry) ≤ length out.old }
    ensures { Wrote out.old at (slot_field shows.now entry) result out.new }
{
    if entry % 4 == 0 {
        put_bytes(out, at, b"- ")
    } else {
        put_field(out, at, slot_of(shows, (entry / 4) as usize), b' ')
    }
}

#[tactic(auto, using(crate::proofs::TextLaws::line_digits))]
fn line_len(units: UnitList, position: u64, entry: u32) -> usize
    ensures { result ≡ length (line_in units.entry position entry) }
{
    let head = decimal_len(position) + decimal_len(u64::from(entry / 4)) + 4;
    let len = units.named(entry).len();
    head + slot_len(units.shows, entry) + decimal_len(len as u64) + 1
}

// Writes the line of the unit at a position, from 1.
#[tactic(auto, using(crate::proofs::TextLaws::length_line, crate::proofs::TextLaws::length_field))]
fn put_line(out: &mut [u8], at: usize, units: UnitList, position: u64, entry: u32) -> usize
    requires { at + length (line_in units position entry) ≤ length out.old }
    ensures { Wrote out.old at (line_in units.entry position entry) result out.new }
{
    let kind = put_field(out, at, position, b' ');
    let segment = put_bytes(out, kind, &[letter_of(entry), b' ']);
    let slot = put_field(out, segment, u64::from(entry / 4), b' ');
    let last = put_slot(out, slot, units.shows, entry);
    put_field(out, last, units.named(entry).len() as u64, b'\n')
}

// Whether the lines of all units have room.
fn lines_fit(room: usize, units: UnitList) -> bool
    ensures { result ≡ leb (length (lines_in units.entry)) room }
{
    let mut left = room;
    for (i, entry) in units.list.iter().enumerate() {
        let n = line_len(units, i as u64 + 1, *entry);
        if n > left {
            return false;
        }
        left -= n;
    }
    true
}

// Writes the lines of all units.
#[tactic(auto, using(crate::proofs::TextLaws::lining_end, crate::proofs::TextLaws::lining_room))]
fn put_lines(out: &mut [u8], at: usize, units: UnitList) -> usize
    requires { at + length (lines_in units) ≤ length out.old }
    ensures { Wrote out.old at (lines_in units.entry) result out.new }
{
    let mut to = at;
    for (i, entry) in units.list.iter().enumerate() {
        to = put_line(out, to, units, i as u64 + 1, *entry);
    }
    to
}

// Writes the listing of an accepted list, or nothing where it has no room.
#[tactic(auto, using(crate::proofs::TextLaws::listing_length))]
pub fn put_listing(out: &mut [u8], cues: usize, units: UnitList) -> Result<usize, Refusal>
    ensures answer { says result ≡ placed out.old 0 (listing_in cues units.entry) }
    ensures out { out.new ≡ lent out.old 0 (listing_in cues units.entry) }
{
    let count = units.list.len() as u64;
    let head = decimal_len(count) + decimal_len(cues as u64) + 13;
    if out.len() < head || !lines_fit(out.len() - head, units) {
        return Err(Refusal::NoRoom);
    }
    let to = put_counted(out, 0, b"units ", count, b'\n');
    let to = put_counted(out, to, b"cues ", cues as u64, b'\n');
    Ok(put_lines(out, to, units))
}

// Writes that assembly refused, by document 01's number.
#[tactic(auto, using(crate::proofs::TextLaws::length_counted))]
pub fn put_refused(out: &mut [u8], number: u32) -> Result<usize, Refusal>
    ensures answer { says result ≡ placed out.old 0 (refused_text number) }
    ensures out { out.new ≡ lent out.old 0 (refused_text number) }
{
    let n = u64::from(number);
    if out.len() < decimal_len(n) + 9 {
        return Err(Refusal::NoRoom);
    }
    Ok(put_counted(out, 0, b"refused ", n, b'\n'))
}

// The same, with the segment from 0.
#[tactic(auto, using(crate::proofs::TextLaws::length_counted))]
pub fn put_refused_in(out: &mut [u8], number: u32, segment: usize) -> Result<usize, Refusal>
    ensures answer { says result ≡ placed out.old 0 (refused_in_text number segment) }
    ensures out { out.new ≡ lent out.old 0 (refused_in_text number segment) }
{
    let n = u64::from(number);
    let i = segment as u64;
    if out.len() < decimal_len(n) + decimal_len(i) + 18 {
        return Err(Refusal::NoRoom);
    }
    let to = put_counted(out, 0, b"refused ", n, b' ');
    Ok(put_counted(out, to, b"segment ", i, b'\n'))
}

// Writes why assembly refuses, with the segment where one is to blame.
pub fn put_fault(out: &mut [u8], fault: Fault) -> Result<usize, Refusal>
    ensures answer { says result ≡ placed out.old 0 (fault_text fault) }
    ensures out { out.new ≡ lent out.old 0 (fault_text fault) }
{
    let number = u32::from(fault.refusal);
    match fault.segment {
        None => put_refused(out, number),
        Some(segment) => put_refused_in(out, number, segment),
    }
}

// Writes why a file was not read.
#[tactic(auto, using(crate::proofs::WroteLaws::none_placed, crate::proofs::WroteLaws::none_lent))]
pub fn put_unread(out: &mut [u8], unread: Unread) -> Result<usize, Refusal>
    ensures answer { says result ≡ placed out.old 0 (unread_text unread) }
    ensures out { out.new ≡ lent out.old 0 (unread_text unread) }
{
    let text = b"bad file\n";
    match unread {
        Unread::Full => put_fault(out, Fault::overall(Refusal::NoRoom)),
        Unread::Bad if out.len() < text.len() => Err(Refusal::NoRoom),
        Unread::Bad => Ok(put_bytes(out, 0, text)),
    }
}
