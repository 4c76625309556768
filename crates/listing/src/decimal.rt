// Decimal numbers as text, put into lent memory whose room is known.
// kept: each function answers the place behind what it puts. The new form is no plainer: tried with a page that holds the lent
// slice and the place, its methods, each around a function here, and what they promise are 50 lines, for the places that the
// bodies of put_slot, put_line, put_lines and put_listing no longer hand on; and put_line then has to answer its room piece by piece
ghost use Rattle.std.specs.Prelude.{◌≡◌, ◌+◌, ◌≤◌, length};
ghost use Rattle.bitio.specs.Lent.{Wrote};
ghost use Rattle.listing.specs.Decimal.{decimal, field, counted};

use obu::writer::put_bytes;

// How many digits v has.
#[tactic(auto, using(crate::proofs::DecimalLaws::decimal_one, crate::proofs::DecimalLaws::decimal_large))]
pub(crate) fn decimal_len(v: u64) -> usize
    ensures { (result ≡ length (decimal v)) × (result ≤ 20) }
{
    // most have one, and the logarithm takes longer than such a number's text
    if v < 10 {
        return 1;
    }
    v.ilog10() as usize + 1
}

// Writes the digits of v, the last first.
// kept: the new form is no plainer: io::decimal fills 20 bytes of its own, from which the digits would be copied to `at`
#[tactic(auto, using(crate::proofs::DecimalLaws::digits_start, crate::proofs::DecimalLaws::digits_end))]
fn put_decimal(out: &mut [u8], at: usize, v: u64) -> usize
    requires { at + length (decimal v) ≤ length out.old }
    ensures { Wrote out.old at (decimal v) result out.new }
{
    let end = at + decimal_len(v);
    let mut x = v;
    for i in (at..end).rev() {
        out[i] = b'0' + (x % 10) as u8;
        x /= 10;
    }
    end
}

// Writes v and a character behind it. For crates that have measured the room.
#[tactic(auto, using(crate::proofs::WroteLaws::wrote_store, crate::proofs::TextLaws::length_field))]
pub fn put_field(out: &mut [u8], at: usize, v: u64, last: u8) -> usize
    requires { at + length (field v last) ≤ length out.old }
    ensures { Wrote out.old at (field v last) result out.new }
{
    let end = put_decimal(out, at, v);
    out[end] = last;
    end + 1
}

// Writes a word, v, and a character behind it. For crates that have measured the room.
pub fn put_counted(out: &mut [u8], at: usize, word: &[u8], v: u64, last: u8) -> usize
    requires { at + length (counted word.now v last) ≤ length out.old }
    ensures { Wrote out.old at (counted word.now v last) result out.new }
{
    let to = put_bytes(out, at, word);
    put_field(out, to, v, last)
}
