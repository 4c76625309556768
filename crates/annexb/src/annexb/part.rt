// The sized parts of Annex B, each at the head of bytes: a unit, a frame unit, an OBU (AV1 B.2).
ghost use Rattle.std.specs.Prelude.{◌≡◌, true};
ghost use Rattle.bitio.specs.Leb.{read_leb, leb_answer, sized};
ghost use Rattle.bitio.specs.Refusal.{number};
ghost use Rattle.obu.specs.Place.{extension_says};
ghost use Rattle.container.specs.AnnexB.{with_size, typed, inner_obu, length_obu};
ghost use Rattle.annexb.specs.code.Parts.{part_says, inner_says, obu_says};

use bitio::leb128::leb128;
use bitio::refusal::Refusal;
use obu::reader::is_known_type;

// An OBU of Annex B, its payload where it was read.
#[derive(Clone, Copy)]
pub(crate) struct Inner<'a> {
    pub(crate) obu_type: u8,
    pub(crate) extension: Option<u8>,
    pub(crate) payload: &'a [u8],
}

// The number at the head of s. Most have one byte, which is read here without a call.
fn length_of(s: &[u8]) -> Option<(u64, usize)>
    ensures { result ≡ leb_answer s.now (read_leb s.now) }
{
    if !s.is_empty() && s[0] < 128 {
        return Some((s[0] as u64, 1));
    }
    leb128(s)
}

// As many bytes as the number at the head of s says, and what follows them; bad: no such number, over: too few bytes.
fn part_of(s: &[u8], bad: Refusal, over: Refusal) -> Result<(&[u8], &[u8]), Refusal>
    ensures { part_says result ≡ sized (number bad) (number over) s.now }
{
    let Some((size, used)) = length_of(s) else {
        return Err(bad);
    };
    let behind = &s[used..];
    if size > behind.len() as u64 {
        return Err(over);
    }
    Ok(behind.split_at(size as usize))
}

// The first temporal unit, and what follows it.
pub(crate) fn first_unit(s: &[u8]) -> Result<(&[u8], &[u8]), Refusal>
    ensures { part_says result ≡ sized 6 7 s.now }
{
    part_of(
        s,
        Refusal::TemporalUnitSizeMalformed,
        Refusal::TemporalUnitPastEnd,
    )
}

// The first frame unit, and what follows it.
pub(crate) fn first_frame(s: &[u8]) -> Result<(&[u8], &[u8]), Refusal>
    ensures { part_says result ≡ sized 8 9 s.now }
{
    part_of(
        s,
        Refusal::FrameUnitSizeMalformed,
        Refusal::FrameUnitPastEnd,
    )
}

// The OBU with header byte h whose size stands at the head of s and must count the bytes behind it.
fn sized_obu(h: u8, extension: Option<u8>, s: &[u8]) -> Result<Inner, Refusal>
    ensures { inner_says result ≡ with_size h (extension_says extension) (read_leb s.now) }
{
    let Some((size, used)) = length_of(s) else {
        return Err(Refusal::ObuSizeMalformed);
    };
    let payload = &s[used..];
    if size != payload.len() as u64 {
        return Err(Refusal::ObuSizeContradicts);
    }
    Ok(Inner {
        obu_type: h / 8 % 16,
        extension,
        payload,
    })
}

// The OBU with header byte h, s being what follows header and extension, if its type passes.
fn typed_obu(h: u8, extension: Option<u8>, s: &[u8]) -> Result<Inner, Refusal>
    ensures { inner_says result ≡ typed true h (extension_says extension) s.now }
{
    let obu_type = h / 8 % 16;
    if !is_known_type(obu_type) {
        return Err(Refusal::ReservedObuType);
    }
    if h / 2 % 2 == 1 {
        return sized_obu(h, extension, s);
    }
    Ok(Inner {
        obu_type,
        extension,
        payload: s,
    })
}

// The OBU that fills s.
pub(crate) fn inner_obu(s: &[u8]) -> Result<Inner, Refusal>
    ensures { inner_says result ≡ inner_obu s.now }
{
    let Some((&h, behind)) = s.split_first() else {
        return Err(Refusal::ObuLengthZero);
    };
    if h / 128 % 2 == 1 {
        return Err(Refusal::ForbiddenBit);
    }
    if h / 4 % 2 != 1 {
        return typed_obu(h, None, behind);
    }
    let Some((&extension, rest)) = behind.split_first() else {
        return Err(Refusal::ExtensionMissing);
    };
    typed_obu(h, Some(extension), rest)
}

// The first OBU with its length, and what follows it.
pub(crate) fn first_obu(s: &[u8]) -> Result<(Inner, &[u8]), Refusal>
    ensures { obu_says result ≡ length_obu s.now }
{
    let (part, rest) = part_of(s, Refusal::ObuLengthMalformed, Refusal::ObuLengthPastEnd)?;
    Ok((inner_obu(part)?, rest))
}
