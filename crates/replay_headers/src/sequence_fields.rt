// A sequence header's fields, in the protocol's order.
ghost use Rattle.std.specs.Prelude.{◌≡◌};
ghost use Rattle.header.specs.Sequence.{sequence_in};
ghost use Rattle.protocol.specs.Answers.{line, parts_of, numbered, with_numbers, Tells};
ghost use Rattle.replay_headers.specs.Fields.{timing_fields, model_fields, opening_fields, size_fields, id_fields, tool_fields, hint_bits, screen_fields, filter_fields, color_fields, range_field, sampling_fields, coding_fields, point_fields, points_fields, sequence_fields};

use header::seq_header::{
    Coding, ColorDescription, ColorSampling, DecoderModelInfo, Filters, FrameIds, FrameSize,
    Opening, OperatingPoint, ScreenTools, SequenceObu, TimingInfo, Tools,
};
use protocol::answer::{Answer, Numbers};

fn timing_fields(x: TimingInfo) -> [u64; 5]
    ensures { result ≡ timing_fields x }
{
    [
        x.timing_info_present as u64,
        x.num_units_in_display_tick,
        x.time_scale,
        x.equal_picture_interval as u64,
        x.num_ticks_per_picture_minus_1,
    ]
}

fn model_fields(x: DecoderModelInfo) -> [u64; 5]
    ensures { result ≡ model_fields x }
{
    [
        x.decoder_model_info_present as u64,
        x.buffer_delay_length_minus_1,
        x.num_units_in_decoding_tick,
        x.buffer_removal_time_length_minus_1,
        x.frame_presentation_time_length_minus_1,
    ]
}

fn put_opening(x: Opening, numbers: &mut Numbers<'_>)
    ensures { Tells numbers.old numbers.new (opening_fields x) }
{
    let flags = [
        x.seq_profile,
        x.still_picture as u64,
        x.reduced_still_picture_header as u64,
    ];
    numbers.put_list(&flags);
    numbers.put_list(&timing_fields(x.timing));
    numbers.put_list(&model_fields(x.model));
    numbers.put(x.initial_display_delay_present as u64);
}

fn size_fields(x: FrameSize) -> [u64; 4]
    ensures { result ≡ size_fields x }
{
    [
        x.frame_width_bits_minus_1,
        x.frame_height_bits_minus_1,
        x.max_frame_width_minus_1,
        x.max_frame_height_minus_1,
    ]
}

fn id_fields(x: FrameIds) -> [u64; 3]
    ensures { result ≡ id_fields x }
{
    [
        x.frame_id_numbers_present as u64,
        x.delta_frame_id_length_minus_2,
        x.additional_frame_id_length_minus_1,
    ]
}

fn tool_fields(x: Tools) -> [u64; 10]
    ensures { result ≡ tool_fields x }
{
    [
        x.use_128x128_superblock as u64,
        x.enable_filter_intra as u64,
        x.enable_intra_edge_filter as u64,
        x.enable_interintra_compound as u64,
        x.enable_masked_compound as u64,
        x.enable_warped_motion as u64,
        x.enable_dual_filter as u64,
        x.enable_order_hint as u64,
        x.enable_jnt_comp as u64,
        x.enable_ref_frame_mvs as u64,
    ]
}

// order_hint_bits is 0 without an order hint.
fn screen_fields(x: ScreenTools, has_hint: bool) -> [u64; 5]
    ensures { result ≡ screen_fields x has_hint }
{
    let hint_bits = if has_hint {
        x.order_hint_bits_minus_1 % 8 + 1
    } else {
        0
    };
    [
        x.seq_choose_screen_content_tools as u64,
        x.seq_force_screen_content_tools,
        x.seq_choose_integer_mv as u64,
        x.seq_force_integer_mv,
        hint_bits,
    ]
}

fn filter_fields(x: Filters) -> [u64; 3]
    ensures { result ≡ filter_fields x }
{
    [
        x.enable_superres as u64,
        x.enable_cdef as u64,
        x.enable_restoration as u64,
    ]
}

fn color_fields(x: ColorDescription) -> [u64; 7]
    ensures { result ≡ color_fields x }
{
    [
        x.high_bitdepth as u64,
        x.twelve_bit as u64,
        x.mono_chrome as u64,
        x.color_description_present as u64,
        x.color_primaries,
        x.transfer_characteristics,
        x.matrix_coefficients,
    ]
}

// sRGB implies its color_range: the Rust keeps none, 2 in the protocol.
fn range_of(x: ColorDescription, range: bool) -> u64
    ensures { result ≡ range_field x range }
{
    if x.is_srgb() && !x.mono_chrome {
        2
    } else {
        range as u64
    }
}

fn sampling_fields(x: ColorSampling, range: u64, grain: bool) -> [u64; 6]
    ensures { result ≡ sampling_fields x range grain }
{
    [
        range,
        x.subsample_x as u64,
        x.subsample_y as u64,
        x.chroma_sample_position,
        x.separate_uv_delta_q as u64,
        grain as u64,
    ]
}

fn put_coding(x: Coding, numbers: &mut Numbers<'_>)
    ensures { Tells numbers.old numbers.new (coding_fields x) }
{
    let screen = screen_fields(x.screen, x.tools.enable_order_hint);
    let range = range_of(x.color, x.sampling.color_range);
    let sampling = sampling_fields(x.sampling, range, x.film_grain_params_present);
    numbers.put_list(&size_fields(x.size));
    numbers.put_list(&id_fields(x.ids));
    numbers.put_list(&tool_fields(x.tools));
    numbers.put_list(&screen);
    numbers.put_list(&filter_fields(x.filters));
    numbers.put_list(&color_fields(x.color));
    numbers.put_list(&sampling);
}

fn point_fields(x: OperatingPoint) -> [u64; 9]
    ensures { result ≡ point_fields x }
{
    [
        x.idc,
        x.seq_level_idx,
        x.seq_tier as u64,
        x.decoder_model_present as u64,
        x.decoder_buffer_delay,
        x.encoder_buffer_delay,
        x.low_delay_mode as u64,
        x.initial_display_delay_present as u64,
        x.initial_display_delay_minus_1,
    ]
}

fn put_points(points: &[OperatingPoint], numbers: &mut Numbers<'_>)
    ensures { Tells numbers.old numbers.new (points_fields points.now) }
{
    for point in points {
        numbers.put_list(&point_fields(*point));
    }
}

// All fields of a header, and its operating points.
pub(crate) fn put_sequence(sequence: &SequenceObu, numbers: &mut [u64]) -> Answer
    ensures { numbered (line result) numbers.new ≡ with_numbers (numbered (parts_of 0 0) numbers.old) (sequence_fields (sequence_in sequence.now)) }
{
    let mut told = Numbers::new(numbers);
    put_opening(sequence.header.opening, &mut told);
    put_coding(sequence.header.coding, &mut told);
    put_points(sequence.points(), &mut told);
    told.answer
}
