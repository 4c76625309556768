// How many bytes the units of Annex B have in written form, and how many units there are: the measuring pass.
ghost use Rattle.std.specs.Prelude.{◌≡◌, ◌≤◌, length};
ghost use Rattle.bitio.specs.Limits.{limit};
ghost use Rattle.bitio.specs.Refusal.{says};
ghost use Rattle.container.specs.Units.{sizes_of};
ghost use Rattle.annexb.specs.code.Fill.{units_read};

use crate::annexb::part::{first_frame, first_obu, first_unit};
use bitio::refusal::Refusal;
use container::units::Sizes;
use obu::writer::obu_len;

pub(crate) fn measure(data: &[u8]) -> Result<Sizes, Refusal>
    requires { length «data».now ≤ limit }
    ensures { says result ≡ sizes_of (units_read «data».now) }
{
    let mut left = data;
    let mut bytes: usize = 0;
    let mut units: usize = 0;
    // document 01's form: one label leaves all three loops at the first fault
    'all: {
        while !left.is_empty() {
            let (mut unit, behind_unit) = match first_unit(left) {
                Ok(found) => found,
                Err(refusal) => break 'all Err(refusal),
            };
            while !unit.is_empty() {
                let (mut frame, behind_frame) = match first_frame(unit) {
                    Ok(found) => found,
                    Err(refusal) => break 'all Err(refusal),
                };
                while !frame.is_empty() {
                    let (o, behind_obu) = match first_obu(frame) {
                        Ok(found) => found,
                        Err(refusal) => break 'all Err(refusal),
                    };
                    bytes += obu_len(o.extension, o.payload.len());
                    frame = behind_obu;
                }
                unit = behind_frame;
            }
            units += 1;
            left = behind_unit;
        }
        Ok(Sizes { bytes, units })
    }
}
