// The frame of a unit.
ghost use Rattle.std.specs.Prelude.{◌≡◌};
ghost use Rattle.bitio.specs.Refusal.{says};
ghost use Rattle.header.specs.Sequence.{sequence_in};
ghost use Rattle.frame.specs.UnitFrame.{unit_frame};

use crate::frame_header::FrameHeaderInfo;
use crate::frame_header::read::read_frame_header;
use bitio::refusal::Refusal;
use header::seq_header::SequenceObu;
use obu::unit::{Kind, count_obus, first_payload};

// The header of a unit's first frame under a sequence header: 1 to 5, 28 no frame, 39 if it must be the only one and is
// not, 14, 17 to 19. For crates that have tested the unit's length.
pub fn unit_frame(
    unit: &[u8],
    sequence: &SequenceObu,
    sole: bool,
) -> Result<FrameHeaderInfo, Refusal>
    ensures { says result ≡ unit_frame sole (sequence_in sequence.now) unit.now }
{
    let n = count_obus(unit, Kind::Frame)?;
    if n == 0 {
        return Err(Refusal::NoFrame);
    }
    if sole & (n > 1) {
        return Err(Refusal::SeveralFrames);
    }
    read_frame_header(sequence, first_payload(unit, Kind::Frame))
}
