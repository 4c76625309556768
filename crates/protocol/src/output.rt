// Text on its way to standard output, in a buffer that is written out whenever it is full. The contracts give the place and
// the buffer; what has reached standard output is the world's, and no contract can speak of it.
ghost use Rattle.std.specs.Prelude.{◌≡◌, [], ◌∷◌};
ghost use Rattle.protocol.specs.Typed.{start_output, typed, decimal_text, bytes_text};

use crate::text::hex_digit;

const SIZE: usize = 65536;

pub type Buffer = [u8; SIZE];

#[derive(Drop)]
pub struct Output {
    pub buffer: Buffer,
    // how many characters wait in it
    pub at: usize,
}

impl Output {
    pub fn new() -> Output
        ensures { result ≡ start_output }
    {
        Output {
            buffer: [0; SIZE],
            at: 0,
        }
    }

    // Writes out the characters that wait.
    pub fn flush(&mut self)
        ensures buffer { self.new.buffer ≡ self.old.buffer }
        ensures at { self.new.at ≡ 0 }
    {
        if let Some(waiting) = self.buffer.get(..self.at) {
            io::write_all(1, waiting);
        }
        self.at = 0;
    }

    #[tactic(auto, unfolding(crate::specs::Typed::typed, crate::specs::Typed::next_place))]
    fn put(&mut self, c: u8)
        ensures { self.new ≡ typed self.old (c ∷ []) }
    {
        if self.at >= SIZE {
            self.flush();
        }
        self.buffer[self.at] = c;
        self.at += 1;
    }

    #[tactic(auto, using(crate::proofs::TypedLaws::typed_next), unfolding(crate::specs::Typed::typed))]
    pub(crate) fn put_text(&mut self, text: &[u8])
        ensures { self.new ≡ typed self.old text.now }
    {
        for c in text {
            self.put(*c);
        }
    }

    #[tactic(auto, using(crate::proofs::TypedLaws::decimal_is))]
    pub(crate) fn put_number(&mut self, v: u64)
        ensures { self.new ≡ typed self.old (decimal_text v) }
    {
        let mut digits = [0u8; 20];
        let n = io::decimal(v, &mut digits);
        self.put_text(&digits[..n]);
    }

    // The two digits of a byte: most have room at once.
    #[tactic(auto, unfolding(crate::specs::Typed::typed, crate::specs::Typed::next_place))]
    fn put_pair(&mut self, high: u8, low: u8)
        ensures { self.new ≡ typed self.old (high ∷ low ∷ []) }
    {
        if self.at < SIZE - 1 {
            self.buffer[self.at] = high;
            self.buffer[self.at + 1] = low;
            self.at += 2;
        } else {
            self.put(high);
            self.put(low);
        }
    }

    // Bytes in hexadecimal, `-` for none.
    #[tactic(auto, using(crate::proofs::TypedLaws::hex_pair), unfolding(crate::specs::Typed::typed, crate::specs::Text::hex_text))]
    pub(crate) fn put_hex(&mut self, s: &[u8])
        ensures { self.new ≡ typed self.old (bytes_text s.now) }
    {
        if s.is_empty() {
            self.put(b'-');
        }
        for b in s {
            self.put_pair(hex_digit(*b / 16), hex_digit(*b % 16));
        }
    }
}
