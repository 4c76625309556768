// A sequence header as a payload in lent memory: measured first, then written.
ghost use Rattle.std.specs.Prelude.{◌≡◌, ◌/◌, true, length, take};
ghost use Rattle.bitio.specs.Refusal.{says};
ghost use Rattle.header.specs.Sequence.{sequence_in};
ghost use Rattle.emittable.specs.Emittable.{emittable};
ghost use Rattle.emit.specs.Emit.{sequence_bytes, emit_placed, emit_lent};

use crate::seq_header::payload::Payload;
use bitio::refusal::Refusal;
use bitio::writer::BitWriter;
use emittable::seq_header::emit_fits::is_emittable;
use header::seq_header::SequenceObu;
use header::seq_header::bounded::BoundedOpening;
use obu::writer::put_bytes;

// The payload at the start of its memory.
fn write_payload(sequence: &SequenceObu) -> Payload
    requires { emittable (sequence_in sequence.now) ≡ true }
    ensures size { result.end.pos / 8 ≡ length (sequence_bytes (sequence_in sequence.now)) }
    ensures front { take (result.end.pos / 8) result.bytes ≡ sequence_bytes (sequence_in sequence.now) }
{
    let o = sequence.header.opening;
    let full = !o.reduced_still_picture_header;
    let mut payload = Payload {
        bytes: [0; 400],
        end: BitWriter { pos: 0 },
    };
    payload.put_opening(o);
    payload.put_points(BoundedOpening { opening: o }, sequence.points());
    payload.put_coding(o.seq_profile, full, sequence.header.coding);
    payload.put_trailing_bits();
    payload
}

// The payload of these fields, put into out at `at`, or nothing if no payload reads as them or it has no room there.
#[tactic(auto, unfolding(crate::specs::Emit::emit_placed, crate::specs::Emit::emit_lent, bitio::specs::Lent::placed, bitio::specs::Lent::lent, bitio::specs::Lent::has_room))]
pub fn emit_sequence_header(
    sequence: &SequenceObu,
    out: &mut [u8],
    at: usize,
) -> Result<usize, Refusal>
    ensures result_value { says result ≡ emit_placed out.old at (sequence_in sequence.now) }
    ensures out_after { out.new ≡ emit_lent out.old at (sequence_in sequence.now) }
{
    if !is_emittable(sequence) {
        return Err(Refusal::NotAList);
    }
    let payload = write_payload(sequence);
    let n = payload.end.pos / 8;
    let len = out.len();
    if len < at || len - at < n {
        return Err(Refusal::NoRoom);
    }
    Ok(put_bytes(out, at, &payload.bytes[..n]))
}
