// Text to values and back: hexadecimal digits, byte strings, decimal numbers, words.
ghost use Rattle.std.specs.Prelude.{◌≡◌, ◌+◌, ◌/◌, ◌≤◌, ◌<◌, ◌==◌, position, length, option_map, IfSome};
ghost use Rattle.protocol.specs.Text.{hex_digit, hex_value, byte_of, all_hex, hex_bytes, byte_string, decoded_to, decoded_in, read_number, word_at};

#[tactic(auto, unfolding(crate::specs::Text::hex_digit))]
pub(crate) fn hex_digit(v: u8) -> u8
    requires { v < 16 }
    ensures { result ≡ hex_digit v }
{
    if v < 10 { b'0' + v } else { b'a' + (v - 10) }
}

#[tactic(auto, unfolding(crate::specs::Text::hex_value))]
fn hex_value(c: u8) -> Option<u8>
    ensures value { result ≡ hex_value c }
    ensures below { IfSome result (λ v. v < 16) }
{
    match c {
        b'0'..=b'9' => Some(c - b'0'),
        b'a'..=b'f' => Some(c - b'a' + 10),
        _ => None,
    }
}

// The byte of two digits.
fn byte_of(a: u8, b: u8) -> u8
    ensures { result ≡ byte_of a b }
{
    16 * hex_value(a).unwrap_or(0) + hex_value(b).unwrap_or(0)
}

fn all_hex(text: &[u8]) -> bool
    ensures { result ≡ all_hex text.now }
{
    text.iter().all(|c| hex_value(*c).is_some())
}

// Fills memory with a byte for each two digits.
fn decode_hex(text: &[u8], out: &mut [u8])
    requires { length text.now / 2 ≡ length out.old }
    ensures { out.new ≡ hex_bytes text.now }
{
    for i in 0..out.len() {
        out[i] = byte_of(text[2 * i], text[2 * i + 1]);
    }
}

// How many bytes a byte string has, if the text is one.
#[tactic(auto, using(crate::proofs::TextLaws::bytes_length), unfolding(crate::specs::Text::byte_string, crate::specs::Text::pairs))]
fn byte_count(text: &[u8]) -> Option<usize>
    ensures { result ≡ option_map length (byte_string text.now) }
{
    if text == b"-".as_slice() {
        return Some(0);
    }
    if text.is_empty() || text.len() % 2 != 0 || !all_hex(text) {
        return None;
    }
    Some(text.len() / 2)
}

// Writes the bytes of a byte string at `at`, and returns the place behind them; or writes nothing, if it is none or has no
// room there.
// kept: memory lent from the place on would have no place to add to, and need a test that the place lies in it
pub(crate) fn decode(text: &[u8], out: &mut [u8], at: usize) -> Option<usize>
    ensures result_value { result ≡ decoded_to out.old at (byte_string text.now) }
    ensures out_after { out.new ≡ decoded_in out.old at (byte_string text.now) }
{
    let end = at.checked_add(byte_count(text)?)?;
    if end > out.len() {
        return None;
    }
    decode_hex(text, &mut out[at..end]);
    Some(end)
}

#[tactic(auto, unfolding(crate::specs::Text::read_number, crate::specs::Text::number_from))]
pub(crate) fn read_decimal(text: &[u8]) -> Option<u64>
    ensures { result ≡ read_number text.now }
{
    if text.is_empty() {
        return None;
    }
    let mut v: u64 = 0;
    for c in text {
        if !c.is_ascii_digit() {
            return None;
        }
        v = v.checked_mul(10)?.checked_add(u64::from(*c - b'0'))?;
    }
    Some(v)
}

// Where the first `stop` stands.
fn find(line: &[u8], stop: u8) -> Option<usize>
    ensures { result ≡ position (λ c. c == stop) line.now }
{
    line.iter().position(|c| *c == stop)
}

// The word that starts at `from`: up to the next `stop`, or the rest of the line.
#[tactic(auto, using(crate::proofs::TextLaws::word_is))]
pub fn word_at(line: &[u8], from: usize, stop: u8) -> &[u8]
    requires { from ≤ length line.now }
    ensures value { result.now ≡ word_at stop line.now from }
    ensures within { from + length result.now ≤ length line.now }
{
    let rest = &line[from..];
    let n = find(rest, stop).unwrap_or(rest.len());
    &rest[..n]
}
