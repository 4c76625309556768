// The OBU at a position of lent bytes (AV1 5.3.1 to 5.3.3).
ghost use Rattle.std.specs.Prelude.{◌≡◌, ◌-◌, ◌≤◌, length, drop};
ghost use Rattle.obu.specs.Obu.{passes, sized_body};
ghost use Rattle.obu.specs.Place.{extension_says, place_of, obu_place, found_says, obu_says, part, part_in};

use bitio::ends::{end_of, start_of};
use bitio::refusal::Refusal;

#[derive(Clone, Copy)]
pub struct Obu {
    // kept: a number, as `put_obu` takes any and refuses those that do not pass (2)
    pub obu_type: u8,
    // temporal_id in three bits, spatial_id in two, three reserved
    pub extension: Option<u8>,
    // where the payload starts
    pub start: usize,
    // where it ends, and the next OBU starts
    pub end: usize,
}

impl Obu {
    // Its payload, of the bytes that it was read from.
    pub fn payload(self, s: &[u8]) -> &[u8]
        ensures { result.now ≡ part s.now self.start self.end }
    {
        payload(s, self.start, self.end)
    }

    // How many bytes the payload has.
    pub fn size(self) -> usize
        ensures { result ≡ self.end - self.start }
    {
        self.end.saturating_sub(self.start)
    }
}

// 01: the types 0 to 8 and 15.
#[tactic(auto, unfolding(crate::specs::Obu::passes))]
pub fn is_known_type(t: u8) -> bool
    ensures { result ≡ passes t }
{
    t <= 8 || t == 15
}

// What follows the header byte h and the extension, at p: the size or the rest.
fn body_at(s: &[u8], h: u8, extension: Option<u8>, p: usize) -> Result<Obu, Refusal>
    requires { p ≤ length s.now }
    ensures { found_says result ≡ place_of s.now (sized_body h (extension_says extension) (drop p s.now)) }
{
    let obu_type = h / 8 % 16;
    let len = s.len();
    if h / 2 % 2 != 1 {
        return Ok(Obu {
            obu_type,
            extension,
            start: p,
            end: len,
        });
    }
    let Some((size, used)) = bitio::leb128::leb128(&s[p..]) else {
        return Err(Refusal::ObuSizeMalformed);
    };
    let start = p + used;
    if size > (len - start) as u64 {
        return Err(Refusal::ObuPastEnd);
    }
    let end = start + size as usize;
    Ok(Obu {
        obu_type,
        extension,
        start,
        end,
    })
}

// The OBU at `at`; none where no bytes are left. It refuses with 1 to 5.
pub fn obu_at(s: &[u8], at: usize) -> Result<Option<Obu>, Refusal>
    ensures { obu_says result ≡ obu_place s.now at }
{
    if at >= s.len() {
        return Ok(None);
    }
    let h = s[at];
    if h / 128 % 2 == 1 {
        return Err(Refusal::ForbiddenBit);
    }
    if !is_known_type(h / 8 % 16) {
        return Err(Refusal::ReservedObuType);
    }
    let p = at + 1;
    if h / 4 % 2 == 1 {
        if p >= s.len() {
            return Err(Refusal::ExtensionMissing);
        }
        return Ok(Some(body_at(s, h, Some(s[p]), p + 1)?));
    }
    Ok(Some(body_at(s, h, None, p)?))
}

// The payload, not copied: what lies from start to end, nothing where they are not within s.
#[tactic(auto, unfolding(crate::specs::Place::part, bitio::specs::Lent::span))]
pub fn payload(s: &[u8], start: usize, end: usize) -> &[u8]
    ensures { result.now ≡ part s.now start end }
{
    if start <= end && end <= s.len() {
        &s[start..end]
    } else {
        &s[..0]
    }
}

// Part i of bytes whose parts lie one behind the other, each with its end in `ends`.
pub fn part_in<'a>(s: &'a [u8], ends: &[u32], i: usize) -> &'a [u8]
    ensures { result.now ≡ part_in s.now ends.now i }
{
    payload(s, start_of(ends, i), end_of(ends, i))
}
