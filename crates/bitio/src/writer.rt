// Bits, written most significant first into lent memory (AV1 4.10.2), uvlc, trailing bits and alignment.
ghost use Rattle.std.specs.Prelude.{◌≡◌, ◌+◌, ◌/◌, ◌%◌, ◌^◌, ◌≤◌, ◌<◌, length};
ghost use Rattle.bitio.specs.Bits.{bits_in};
ghost use Rattle.bitio.specs.Write.{with_bit, put_bits, bits_placed, bits_lent, writing, halvings, uvlc_width, trailing_width, trailing_bits, alignment_width};

use crate::reader::bits_within;
use crate::refusal::Refusal;

// A bit position in lent memory: 0 is the most significant bit of byte 0.
#[derive(Clone, Copy)]
pub struct BitWriter {
    pub pos: usize,
}

// The bit of v at the place 2 ^ i, for any i.
fn bit_of(v: u64, i: usize) -> u64
    ensures { result ≡ v / 2 ^ i % 2 }
{
    if i < 64 { (v >> i) % 2 } else { 0 }
}

// x with b as its bit at the place 2 ^ k.
fn with_bit(x: u8, k: usize, b: u64) -> u8
    requires { (k ≤ 7) × (b < 2) }
    ensures { result ≡ with_bit x k b }
{
    let y = x as u64;
    let w = 1u64 << k;
    let h = 1u64 << (k + 1);
    ((y >> (k + 1)) * h + (b * w + y % w)) as u8
}

// Writes the low n bits of v at pos, where their room is known.
fn put_bits(out: &mut [u8], pos: usize, n: usize, v: u64)
    requires { pos + n ≤ bits_in (length out.old) }
    ensures { out.new ≡ put_bits out.old pos v n }
{
    for i in 0..n {
        let p = pos + i;
        let b = bit_of(v, n - 1 - i);
        let k = 7 - p % 8;
        out[p / 8] = with_bit(out[p / 8], k, b);
    }
}

// How often x, at most 2 ^ 32, can be halved before it is below 2.
pub fn log2(x: u64) -> usize
    requires { x ≤ 2 ^ 32 }
    ensures { result ≡ halvings 32 x }
{
    x.max(1).ilog2() as usize
}

impl BitWriter {
    // f(n): the low n bits of v, zeros above 64.
    #[tactic(auto, unfolding(crate::specs::Write::bits_placed, crate::specs::Write::bits_lent, crate::specs::Bits::bits_within))]
    pub fn f(self, out: &mut [u8], n: usize, v: u64) -> Result<BitWriter, Refusal>
        ensures result_value { writing result ≡ bits_placed out.old self.pos n }
        ensures out_after { out.new ≡ bits_lent out.old self.pos v n }
    {
        let pos = self.pos;
        if !bits_within(out.len(), pos, n) {
            return Err(Refusal::NoRoom);
        }
        put_bits(out, pos, n, v);
        Ok(BitWriter { pos: pos + n })
    }

    // uvlc. What is read back is every v below 2 ^ 32 - 1.
    #[tactic(auto, unfolding(crate::specs::Write::uvlc_zeros))]
    pub fn uvlc(self, out: &mut [u8], v: u32) -> Result<BitWriter, Refusal>
        ensures result_value { writing result ≡ bits_placed out.old self.pos (uvlc_width v) }
        ensures out_after { out.new ≡ bits_lent out.old self.pos (v + 1) (uvlc_width v) }
    {
        let x = (v as u64) + 1;
        self.f(out, 2 * log2(x) + 1, x)
    }

    // trailing_bits: a one, and zeros up to a whole byte.
    pub fn trailing_bits(self, out: &mut [u8]) -> Result<BitWriter, Refusal>
        ensures result_value { writing result ≡ bits_placed out.old self.pos (trailing_width self.pos) }
        ensures out_after { out.new ≡ bits_lent out.old self.pos (trailing_bits self.pos) (trailing_width self.pos) }
    {
        let off = self.pos % 8;
        self.f(out, 8 - off, 1u64 << (7 - off))
    }

    // byte_alignment: zeros up to a whole byte.
    pub fn byte_alignment(self, out: &mut [u8]) -> Result<BitWriter, Refusal>
        ensures result_value { writing result ≡ bits_placed out.old self.pos (alignment_width self.pos) }
        ensures out_after { out.new ≡ bits_lent out.old self.pos 0 (alignment_width self.pos) }
    {
        let off = self.pos % 8;
        self.f(out, (8 - off) % 8, 0)
    }
}
