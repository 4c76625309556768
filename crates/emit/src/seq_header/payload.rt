// A payload of a sequence header, written one field after the other.
ghost use Rattle.bitio.specs.Write.{trailing_width, trailing_bits};
ghost use Rattle.emit.specs.code.WroteBits.{Wrote};
ghost use Rattle.emittable.specs.PutFields.{put, put_or, put_flag, put_flag_or, put_uvlc_or};

use bitio::writer::BitWriter;

// Every payload has room in it, so that no writer refuses.
#[derive(Drop)]
pub(crate) struct Payload {
    pub bytes: [u8; 400],
    pub end: BitWriter,
}

impl Payload {
    // f(n)
    pub(crate) fn put(&mut self, n: usize, v: u64)
        ensures { Wrote self.old self.new (put n v) }
    {
        self.end = self.end.f(&mut self.bytes, n, v).unwrap_or(self.end);
    }

    // f(n) where on
    pub(crate) fn put_or(&mut self, on: bool, n: usize, v: u64)
        ensures { Wrote self.old self.new (put_or on n v) }
    {
        if on {
            self.put(n, v);
        }
    }

    // a flag
    #[tactic(auto, unfolding(emittable::specs::PutFields::put_flag))]
    pub(crate) fn put_flag(&mut self, v: bool)
        ensures { Wrote self.old self.new (put_flag v) }
    {
        self.put(1, v as u64);
    }

    // a flag where on
    pub(crate) fn put_flag_or(&mut self, on: bool, v: bool)
        ensures { Wrote self.old self.new (put_flag_or on v) }
    {
        if on {
            self.put_flag(v);
        }
    }

    // uvlc where on
    pub(crate) fn put_uvlc_or(&mut self, on: bool, v: u32)
        ensures { Wrote self.old self.new (put_uvlc_or on v) }
    {
        if on {
            self.end = self.end.uvlc(&mut self.bytes, v).unwrap_or(self.end);
        }
    }

    pub(crate) fn put_trailing_bits(&mut self)
        ensures { Wrote self.old self.new (put (trailing_width self.old.end.pos) (trailing_bits self.old.end.pos)) }
    {
        self.end = self.end.trailing_bits(&mut self.bytes).unwrap_or(self.end);
    }
}
