// Units in lent memory, their bytes one behind the other and the u32 end of each: how many, and whether they have room.
ghost use Rattle.std.specs.Prelude.{◌≡◌, length};
ghost use Rattle.container.specs.Limits.{fits, bytes_room, room_in};

use bitio::limits::LIMIT;

// Whether lent memory, and document 01's limit, can hold a result that was measured.
pub fn has_room(bytes: usize, units: usize, out_len: usize, ends_len: usize) -> bool
    ensures { result ≡ fits bytes units (record { bytes = out_len; ends = ends_len }) }
{
    bytes <= LIMIT && (bytes <= out_len && units <= ends_len)
}

#[derive(Clone, Copy)]
pub struct Sizes {
    pub bytes: usize,
    pub units: usize,
}

impl Sizes {
    // The same of lent memory itself.
    pub fn have_room(self, out: &[u8], ends: &[u32]) -> bool
        ensures { result ≡ fits self.bytes self.units (room_in out.now ends.now) }
    {
        has_room(self.bytes, self.units, out.len(), ends.len())
    }
}

// And of bytes alone.
pub fn have_room(bytes: usize, out: &[u8]) -> bool
    ensures { result ≡ fits bytes 0 (bytes_room (length out.now)) }
{
    has_room(bytes, 0, out.len(), 0)
}
