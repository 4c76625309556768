// The sequence header (AV1 5.5). A field that is not in the bits has the value that it counts as.
// kept: a flag stands beside its fields, since later syntax uses the values that absent ones count as, and a header to
// emit can have any, which are refused (36) where no payload reads so; an Option could not hold them
ghost use Rattle.std.specs.Prelude.{◌≡◌, take, min, length};
ghost use Rattle.header.specs.SequencePoints.{point_count};
ghost use Rattle.header.specs.SequenceCoding.{srgb, range_coded, sampled, sampling_coded};

pub mod bounded;
pub mod check;
pub mod read;
mod read_coding;
mod read_color;
mod read_opening;
mod read_points;
mod read_tools;
pub mod timing;

// timing_info (AV1 5.5.3), and whether it is there.
#[derive(Clone, Copy)]
pub struct TimingInfo {
    pub timing_info_present: bool,
    pub num_units_in_display_tick: u64,
    pub time_scale: u64,
    pub equal_picture_interval: bool,
    pub num_ticks_per_picture_minus_1: u64,
}

// decoder_model_info (AV1 5.5.4), and whether it is there.
#[derive(Clone, Copy)]
pub struct DecoderModelInfo {
    pub decoder_model_info_present: bool,
    pub buffer_delay_length_minus_1: u64,
    pub num_units_in_decoding_tick: u64,
    pub buffer_removal_time_length_minus_1: u64,
    pub frame_presentation_time_length_minus_1: u64,
}

// The fields before the operating points (AV1 5.5.1).
#[derive(Clone, Copy)]
pub struct Opening {
    pub seq_profile: u64,
    pub still_picture: bool,
    pub reduced_still_picture_header: bool,
    pub timing: TimingInfo,
    pub model: DecoderModelInfo,
    pub initial_display_delay_present: bool,
    pub operating_points_cnt_minus_1: u64,
}

// One operating point (AV1 5.5.1), with operating_parameters_info (AV1 5.5.5).
#[derive(Clone, Copy, Default)]
pub struct OperatingPoint {
    pub idc: u64,
    pub seq_level_idx: u64,
    pub seq_tier: bool,
    pub decoder_model_present: bool,
    pub decoder_buffer_delay: u64,
    pub encoder_buffer_delay: u64,
    pub low_delay_mode: bool,
    pub initial_display_delay_present: bool,
    pub initial_display_delay_minus_1: u64,
}

// The largest frame, each size less 1 in as many bits as said.
#[derive(Clone, Copy)]
pub struct FrameSize {
    pub frame_width_bits_minus_1: u64,
    pub frame_height_bits_minus_1: u64,
    pub max_frame_width_minus_1: u64,
    pub max_frame_height_minus_1: u64,
}

// The widths of frame ids.
#[derive(Clone, Copy)]
pub struct FrameIds {
    pub frame_id_numbers_present: bool,
    pub delta_frame_id_length_minus_2: u64,
    pub additional_frame_id_length_minus_1: u64,
}

// Coding tools, up to those of the order hint.
#[derive(Clone, Copy)]
pub struct Tools {
    pub use_128x128_superblock: bool,
    pub enable_filter_intra: bool,
    pub enable_intra_edge_filter: bool,
    pub enable_interintra_compound: bool,
    pub enable_masked_compound: bool,
    pub enable_warped_motion: bool,
    pub enable_dual_filter: bool,
    pub enable_order_hint: bool,
    pub enable_jnt_comp: bool,
    pub enable_ref_frame_mvs: bool,
}

// Screen content tools and integer motion vectors: 0 off, 1 on, 2 chosen in each frame; and the order hint's width.
#[derive(Clone, Copy)]
pub struct ScreenTools {
    pub seq_choose_screen_content_tools: bool,
    pub seq_force_screen_content_tools: u64,
    pub seq_choose_integer_mv: bool,
    pub seq_force_integer_mv: u64,
    pub order_hint_bits_minus_1: u64,
}

#[derive(Clone, Copy)]
pub struct Filters {
    pub enable_superres: bool,
    pub enable_cdef: bool,
    pub enable_restoration: bool,
}

// color_config (AV1 5.5.2), up to the matrix coefficients.
#[derive(Clone, Copy)]
pub struct ColorDescription {
    pub high_bitdepth: bool,
    pub twelve_bit: bool,
    pub mono_chrome: bool,
    pub color_description_present: bool,
    pub color_primaries: u64,
    pub transfer_characteristics: u64,
    pub matrix_coefficients: u64,
}

impl ColorDescription {
    // CP_BT_709, TC_SRGB and MC_IDENTITY, for which later syntax has cases of its own.
    pub fn is_srgb(self) -> bool
        ensures { result ≡ srgb self }
    {
        self.color_primaries == 1
            && self.transfer_characteristics == 13
            && self.matrix_coefficients == 0
    }

    // color_range is in the bits.
    pub fn is_range_coded(self) -> bool
        ensures { result ≡ range_coded self }
    {
        self.mono_chrome || !self.is_srgb()
    }

    // Subsampling goes by the profile.
    pub fn is_sampled(self) -> bool
        ensures { result ≡ sampled self }
    {
        !self.mono_chrome && !self.is_srgb()
    }

    // Subsampling is in the bits.
    pub fn is_sampling_coded(self, profile: u64) -> bool
        ensures { result ≡ sampling_coded profile self }
    {
        self.is_sampled() && profile == 2 && self.twelve_bit
    }
}

// color_config (AV1 5.5.2), from color_range on. sRGB implies a full color_range.
#[derive(Clone, Copy)]
pub struct ColorSampling {
    pub color_range: bool,
    pub subsample_x: bool,
    pub subsample_y: bool,
    pub chroma_sample_position: u64,
    pub separate_uv_delta_q: bool,
}

// The fields behind the operating points (AV1 5.5.1).
#[derive(Clone, Copy)]
pub struct Coding {
    pub size: FrameSize,
    pub ids: FrameIds,
    pub tools: Tools,
    pub screen: ScreenTools,
    pub filters: Filters,
    pub color: ColorDescription,
    pub sampling: ColorSampling,
    pub film_grain_params_present: bool,
}

// The fields before and behind the operating points.
#[derive(Clone, Copy)]
pub struct SequenceHeader {
    pub opening: Opening,
    pub coding: Coding,
}

// sequence_header_obu (AV1 5.5.1). Those behind the last operating point are zero where a payload was read.
#[derive(Clone, Copy)]
pub struct SequenceObu {
    pub header: SequenceHeader,
    // kept: fixed memory, and operating_points_cnt_minus_1 is AV1's own count of them
    pub operating_points: [OperatingPoint; 32],
}

impl SequenceObu {
    // Those of the array that are operating points: of a count above 32, as no payload has, all.
    pub fn points(&self) -> &[OperatingPoint]
        ensures points { result.now ≡ take (point_count self.now.header.opening) self.now.operating_points }
        ensures count { length result.now ≡ min (point_count self.now.header.opening) 32 }
    {
        let more = self.header.opening.operating_points_cnt_minus_1.min(31) as usize;
        &self.operating_points[..more + 1]
    }
}
