// What a packaging host calls from C: numbers and byte slices only. Declared in include/magbelo.h.
#![tactic(auto)]

ghost use Rattle.container.specs.Container.{stream, read};
ghost use Rattle.assemble.specs.Whole.{outcome, six};
ghost use Rattle.capi.specs.Door.{four, UnitsRead, five, Called};

use assemble::multi::{Buffers, assemble_multi, code_of};
use blocks::numbers::Segments;
use container::stream::split_obu_stream;
use pictures::settings::Settings;

// The units of a stream: 0, with their bytes in `out`, the end of each in `ends`, and how many there are of both; or
// document 01's number, and all is as it was.
#[unsafe(no_mangle)]
pub extern "C" fn magbelo_split_obu_stream(
    data: &[u8],
    out: &mut [u8],
    ends: &mut [u32],
    bytes: &mut usize,
    units: &mut usize,
) -> u32
    ensures { UnitsRead (λ room. read stream room «data».now) result (record {
      entry = four out.old ends.old bytes.old units.old;
      exit = four out.new ends.new bytes.new units.new;
    }) }
{
    match split_obu_stream(data, out, ends) {
        Err(refusal) => refusal.into(),
        Ok(sizes) => {
            *bytes = sizes.bytes;
            *units = sizes.units;
            0
        }
    }
}

// Assembly: 0, with all that is handed out in the lent slices and its counts; or document 01's number, with
// (segment + 1) * 2^32 more where 01 adds the segment, and all is as it was. The numbers are whole records of
// segments, as include/magbelo.h lays them out.
#[unsafe(no_mangle)]
pub extern "C" fn magbelo_assemble(
    picture: &[u8],
    segments: &[u64],
    gop_size: u64,
    fps: u32,
    fps_den: u32,
    list: &mut [u32],
    cues: &mut [u32],
    pictures: &mut [u8],
    ends: &mut [u32],
    shows: &mut [u8],
    header: &mut [u8],
    units: &mut usize,
    cue_count: &mut usize,
    picture_len: &mut usize,
    header_len: &mut usize,
    golden_slot: &mut u64,
) -> u64
    ensures { Called (outcome picture.now segments.now (record { gop = gop_size; fps = fps; den = fps_den })) result (record {
      entry = six list.old cues.old pictures.old ends.old shows.old header.old;
      exit = six list.new cues.new pictures.new ends.new shows.new header.new;
    }) (record {
      entry = five units.old cue_count.old picture_len.old header_len.old golden_slot.old;
      exit = five units.new cue_count.new picture_len.new header_len.new golden_slot.new;
    }) }
{
    let segments = Segments {
        picture,
        numbers: segments,
    };
    let settings = Settings {
        gop: gop_size,
        fps,
        den: fps_den,
    };
    let mut buffers = Buffers {
        list,
        cues,
        pictures,
        ends,
        shows,
        header,
    };
    match assemble_multi(segments, settings, &mut buffers) {
        Err(fault) => code_of(fault),
        Ok(c) => {
            *units = c.units;
            *cue_count = c.cues;
            *picture_len = c.picture;
            *header_len = c.header;
            *golden_slot = c.golden_slot;
            0
        }
    }
}
