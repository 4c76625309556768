// Reading the operating points of a sequence header (AV1 5.5.1).
ghost use Rattle.std.specs.Prelude.{◌≡◌, ◌+◌};
ghost use Rattle.bitio.specs.Bits.{reads, and_then};
ghost use Rattle.bitio.specs.Read.{reading};
ghost use Rattle.header.specs.SequencePoints.{operating_point, operating_points, point_count, padded};

use crate::seq_header::OperatingPoint;
use crate::seq_header::bounded::BoundedOpening;
use bitio::reader::{BitReader, Read};

#[tactic(auto, unfolding(crate::specs::SequencePoints::operating_point))]
fn read_point(r: BitReader, s: &[u8], bounded: BoundedOpening) -> Read<OperatingPoint>
    ensures { reading result ≡ operating_point s.now r.pos bounded.opening }
{
    let o = bounded.opening;
    let full = !o.reduced_still_picture_header;
    let n = bounded.delay_bits();
    let (idc, r) = r.f_or(s, full, 12, 0)?;
    let (seq_level_idx, r) = r.f(s, 5)?;
    let (seq_tier, r) = r.flag_or(s, full && seq_level_idx > 7, false)?;
    let (decoder_model_present, r) = r.flag_or(s, o.model.decoder_model_info_present, false)?;
    let (decoder_buffer_delay, r) = r.f_or(s, decoder_model_present, n, 0)?;
    let (encoder_buffer_delay, r) = r.f_or(s, decoder_model_present, n, 0)?;
    let (low_delay_mode, r) = r.flag_or(s, decoder_model_present, false)?;
    let (initial_display_delay_present, r) = r.flag_or(s, o.initial_display_delay_present, false)?;
    let (initial_display_delay_minus_1, r) = r.f_or(s, initial_display_delay_present, 4, 0)?;
    let point = OperatingPoint {
        idc,
        seq_level_idx,
        seq_tier,
        decoder_model_present,
        decoder_buffer_delay,
        encoder_buffer_delay,
        low_delay_mode,
        initial_display_delay_present,
        initial_display_delay_minus_1,
    };
    Ok((point, r))
}

pub(crate) fn read_points(
    r: BitReader,
    s: &[u8],
    bounded: BoundedOpening,
) -> Read<[OperatingPoint; 32]>
    ensures { reading result ≡ and_then (operating_points (point_count bounded.opening) s.now r.pos bounded.opening) (λ xs p. reads (padded xs) p) }
{
    let mut points = [OperatingPoint::default(); 32];
    let mut r = r;
    for i in 0..bounded.point_count() {
        let (point, next) = read_point(r, s, bounded)?;
        points[i] = point;
        r = next;
    }
    Ok((points, r))
}
