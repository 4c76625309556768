// One OBU in document 01's written form.
ghost use Rattle.std.specs.Prelude.{◌≡◌, ◌+◌, ◌≤◌, ◌<◌, length, true};
ghost use Rattle.bitio.specs.Leb.{leb_bytes};
ghost use Rattle.bitio.specs.Lent.{pasted};
ghost use Rattle.bitio.specs.Limits.{capped};
ghost use Rattle.bitio.specs.Refusal.{says};
ghost use Rattle.obu.specs.Obu.{passes, header, ext_bytes, obu_bytes};
ghost use Rattle.obu.specs.Place.{extension_says};
ghost use Rattle.obu.specs.Write.{obu_length, obu, obu_placed, obu_lent};

use crate::reader::is_known_type;
use bitio::refusal::Refusal;

// How many bytes the extension has.
pub fn extension_len(extension: Option<u8>) -> usize
    ensures { result ≡ length (ext_bytes (extension_says extension)) }
{
    extension.map_or(0, |_| 1)
}

// How many bytes stand before a payload of size bytes.
fn head_len(extension: Option<u8>, size: usize) -> usize
    ensures { result ≡ 1 + length (ext_bytes (extension_says extension)) + length (leb_bytes size) }
{
    1 + extension_len(extension) + bitio::leb128::leb128_len(size as u64)
}

// How many bytes an OBU with a payload of size bytes has, as far as a usize counts them.
pub fn obu_len(extension: Option<u8>, size: usize) -> usize
    ensures { result ≡ capped (obu_length (extension_says extension) size) }
{
    head_len(extension, size).saturating_add(size)
}

// Copies all of src to `at`, where its room is known: the hot path of every writer, for crates that have measured.
pub fn put_bytes(out: &mut [u8], at: usize, src: &[u8]) -> usize
    requires { at + length src.now ≤ length out.old }
    ensures { (result ≡ at + length src.now) × (out.new ≡ pasted out.old at src.now) }
{
    let end = at + src.len();
    out[at..end].copy_from_slice(src);
    end
}

// The header byte, its size flag 2 if a size follows and else 0, and the extension, where their room is known: for crates
// that have measured.
pub fn put_header(
    out: &mut [u8],
    at: usize,
    obu_type: u8,
    extension: Option<u8>,
    size_flag: u8,
) -> usize
    requires { (obu_type < 16) × (size_flag < 4) × (at + (1 + length (ext_bytes (extension_says extension))) ≤ length out.old) }
    ensures { (result ≡ at + (1 + length (ext_bytes (extension_says extension)))) × (out.new ≡ pasted out.old at (header size_flag obu_type (extension_says extension))) }
{
    let Some(e) = extension else {
        out[at] = obu_type * 8 + size_flag;
        return at + 1;
    };
    out[at] = obu_type * 8 + 4 + size_flag;
    out[at + 1] = e;
    at + 2
}

// Writes an OBU whose type passes, where its room is known: for crates that have measured.
pub fn put_measured(
    out: &mut [u8],
    at: usize,
    obu_type: u8,
    extension: Option<u8>,
    payload: &[u8],
) -> usize
    requires { (passes obu_type ≡ true) × (at + obu_length (extension_says extension) (length payload.now) ≤ length out.old) }
    ensures { (result ≡ at + obu_length (extension_says extension) (length payload.now)) × (out.new ≡ pasted out.old at (obu_bytes (obu obu_type (extension_says extension) payload.now))) }
{
    let p = put_header(out, at, obu_type, extension, 2);
    let q = bitio::leb128::put_leb128(out, p, payload.len() as u64);
    put_bytes(out, q, payload)
}

// Writes an OBU at `at`, or nothing if its type is reserved or it has no room there.
pub fn put_obu(
    out: &mut [u8],
    at: usize,
    obu_type: u8,
    extension: Option<u8>,
    payload: &[u8],
) -> Result<usize, Refusal>
    ensures result_value { says result ≡ obu_placed out.old at obu_type (extension_says extension) payload.now }
    ensures out_after { out.new ≡ obu_lent out.old at obu_type (extension_says extension) payload.now }
{
    if !is_known_type(obu_type) {
        return Err(Refusal::ReservedObuType);
    }
    if out.len() < at || out.len() - at < obu_len(extension, payload.len()) {
        return Err(Refusal::NoRoom);
    }
    Ok(put_measured(out, at, obu_type, extension, payload))
}
