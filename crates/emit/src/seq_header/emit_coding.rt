// Writing a sequence header behind its operating points.
ghost use Rattle.std.specs.Prelude.{◌≤◌};
ghost use Rattle.emit.specs.code.WroteBits.{Wrote};
ghost use Rattle.emittable.specs.PutSequence.{put_size, put_ids, put_tools, put_screen, put_filters, put_color, put_sampling, put_coding};

use crate::seq_header::payload::Payload;
use header::seq_header::{
    Coding, ColorDescription, ColorSampling, Filters, FrameIds, FrameSize, ScreenTools, Tools,
};

impl Payload {
    // The largest frame.
    fn put_size(&mut self, z: FrameSize)
        requires { (z.frame_width_bits_minus_1 ≤ 15) × (z.frame_height_bits_minus_1 ≤ 15) }
        ensures { Wrote self.old self.new (put_size z) }
    {
        self.put(4, z.frame_width_bits_minus_1);
        self.put(4, z.frame_height_bits_minus_1);
        self.put(
            z.frame_width_bits_minus_1 as usize + 1,
            z.max_frame_width_minus_1,
        );
        self.put(
            z.frame_height_bits_minus_1 as usize + 1,
            z.max_frame_height_minus_1,
        );
    }

    // The widths of frame ids.
    fn put_ids(&mut self, full: bool, i: FrameIds)
        ensures { Wrote self.old self.new (put_ids full i) }
    {
        let present = i.frame_id_numbers_present;
        self.put_flag_or(full, present);
        self.put_or(present, 4, i.delta_frame_id_length_minus_2);
        self.put_or(present, 3, i.additional_frame_id_length_minus_1);
    }

    // use_128x128_superblock to enable_ref_frame_mvs.
    fn put_tools(&mut self, full: bool, t: Tools)
        ensures { Wrote self.old self.new (put_tools full t) }
    {
        self.put_flag(t.use_128x128_superblock);
        self.put_flag(t.enable_filter_intra);
        self.put_flag(t.enable_intra_edge_filter);
        self.put_flag_or(full, t.enable_interintra_compound);
        self.put_flag_or(full, t.enable_masked_compound);
        self.put_flag_or(full, t.enable_warped_motion);
        self.put_flag_or(full, t.enable_dual_filter);
        self.put_flag_or(full, t.enable_order_hint);
        self.put_flag_or(t.enable_order_hint, t.enable_jnt_comp);
        self.put_flag_or(t.enable_order_hint, t.enable_ref_frame_mvs);
    }

    // Screen content tools, integer motion vectors, and the order hint's width.
    fn put_screen(&mut self, full: bool, hint: bool, t: ScreenTools)
        ensures { Wrote self.old self.new (put_screen full hint t) }
    {
        let forced = full & !t.seq_choose_screen_content_tools;
        let tools = full & (t.seq_force_screen_content_tools > 0);
        self.put_flag_or(full, t.seq_choose_screen_content_tools);
        self.put_or(forced, 1, t.seq_force_screen_content_tools);
        self.put_flag_or(tools, t.seq_choose_integer_mv);
        self.put_or(tools & !t.seq_choose_integer_mv, 1, t.seq_force_integer_mv);
        self.put_or(hint, 3, t.order_hint_bits_minus_1);
    }

    // enable_superres to enable_restoration.
    fn put_filters(&mut self, f: Filters)
        ensures { Wrote self.old self.new (put_filters f) }
    {
        self.put_flag(f.enable_superres);
        self.put_flag(f.enable_cdef);
        self.put_flag(f.enable_restoration);
    }

    // color_config up to the matrix coefficients.
    fn put_color(&mut self, profile: u64, c: ColorDescription)
        ensures { Wrote self.old self.new (put_color profile c) }
    {
        let present = c.color_description_present;
        self.put_flag(c.high_bitdepth);
        self.put_flag_or((profile == 2) & c.high_bitdepth, c.twelve_bit);
        self.put_flag_or(profile != 1, c.mono_chrome);
        self.put_flag(present);
        self.put_or(present, 8, c.color_primaries);
        self.put_or(present, 8, c.transfer_characteristics);
        self.put_or(present, 8, c.matrix_coefficients);
    }

    // color_config from color_range on.
    fn put_sampling(&mut self, profile: u64, c: ColorDescription, m: ColorSampling)
        ensures { Wrote self.old self.new (put_sampling profile c m) }
    {
        let coded = c.is_sampling_coded(profile);
        let positioned = c.is_sampled() & m.subsample_x & m.subsample_y;
        self.put_flag_or(c.is_range_coded(), m.color_range);
        self.put_flag_or(coded, m.subsample_x);
        self.put_flag_or(coded & m.subsample_x, m.subsample_y);
        self.put_or(positioned, 2, m.chroma_sample_position);
        self.put_flag(m.separate_uv_delta_q);
    }

    // Everything behind the operating points.
    pub(crate) fn put_coding(&mut self, profile: u64, full: bool, c: Coding)
        requires { (c.size.frame_width_bits_minus_1 ≤ 15) × (c.size.frame_height_bits_minus_1 ≤ 15) }
        ensures { Wrote self.old self.new (put_coding profile full c) }
    {
        self.put_size(c.size);
        self.put_ids(full, c.ids);
        self.put_tools(full, c.tools);
        self.put_screen(full, c.tools.enable_order_hint, c.screen);
        self.put_filters(c.filters);
        self.put_color(profile, c.color);
        self.put_sampling(profile, c.color, c.sampling);
        self.put_flag(c.film_grain_params_present);
    }
}
