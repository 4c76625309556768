// Memory of a fixed size for a list that assembly makes.
// kept: a method that lends all six as assembly's `Buffers` was tried: it proves without a clause on what they hold afterwards,
// but boardlist needs that, and the guide has such a clause for one lent reference only: each program lends them itself

ghost use Rattle.std.specs.Prelude.{◌≡◌, replicate};

// Room for so many units, and for as many segments: each has two ends and a show unit of five bytes.
pub const COUNT: usize = 4096;

// Room for so many picture bytes, and bytes of the sequence header OBU.
pub const BYTES: usize = 65536;

#[derive(Drop)]
pub struct ListMemory {
    pub list: [u32; COUNT],
    pub cues: [u32; COUNT],
    pub pictures: [u8; BYTES],
    pub ends: [u32; 2 * COUNT],
    pub shows: [u8; 5 * COUNT],
    pub header: [u8; BYTES],
}

impl ListMemory {
    pub fn new() -> ListMemory
        ensures { result ≡ record {
          list = replicate 4096 0;
          cues = replicate 4096 0;
          pictures = replicate 65536 0;
          ends = replicate 8192 0;
          shows = replicate 20480 0;
          header = replicate 65536 0;
        } }
    {
        ListMemory {
            list: [0; COUNT],
            cues: [0; COUNT],
            pictures: [0; BYTES],
            ends: [0; 2 * COUNT],
            shows: [0; 5 * COUNT],
            header: [0; BYTES],
        }
    }
}
