// What refresh_frame_flags do to the eight slots (AV1 7.20), whatever a slot holds.
ghost use Rattle.std.specs.Prelude.{◌≡◌};
ghost use Rattle.frame.specs.Refresh.{refresh};

// Each slot whose bit is set takes the frame.
pub fn refresh<T: Copy>(slots: &mut [T; 8], flags: u64, new: T)
    ensures { slots.new ≡ refresh flags new slots.old }
{
    for (i, slot) in slots.iter_mut().enumerate() {
        let bit = (flags >> i) % 2;
        if bit == 1 {
            *slot = new;
        }
    }
}
