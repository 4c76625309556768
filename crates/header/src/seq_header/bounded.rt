// An opening as a payload can have it, of which its operating points are read and written.
ghost use Rattle.std.specs.Prelude.{◌≡◌, ◌≤◌};
ghost use Rattle.header.specs.SequencePoints.{delay_bits, point_count};

use crate::seq_header::Opening;

// The width of a buffer delay, and the number of operating points, have five bits each.
#[derive(Clone, Copy)]
pub struct BoundedOpening {
    pub opening: Opening,
    pub ghost delay: { delay_bits opening ≤ 32 },
    pub ghost count: { point_count opening ≤ 32 },
}

impl BoundedOpening {
    // The width of a buffer delay.
    pub fn delay_bits(self) -> usize
        ensures { result ≡ delay_bits self.opening }
    {
        self.opening.model.buffer_delay_length_minus_1 as usize + 1
    }

    // How many operating points there are.
    pub fn point_count(self) -> usize
        ensures { result ≡ point_count self.opening }
    {
        self.opening.operating_points_cnt_minus_1 as usize + 1
    }
}
