// Writing a sequence header up to the last operating point.
ghost use Rattle.std.specs.Prelude.{◌^◌, ◌<◌};
ghost use Rattle.emit.specs.code.WroteBits.{Wrote};
ghost use Rattle.emittable.specs.PutSequence.{put_timing, put_model, put_opening, put_point, put_points};

use crate::seq_header::payload::Payload;
use header::seq_header::bounded::BoundedOpening;
use header::seq_header::{DecoderModelInfo, Opening, OperatingPoint, TimingInfo};

impl Payload {
    // timing_info
    fn put_timing(&mut self, full: bool, t: TimingInfo)
        requires { t.num_ticks_per_picture_minus_1 < 2 ^ 32 }
        ensures { Wrote self.old self.new (put_timing full t) }
    {
        let present = t.timing_info_present;
        self.put_flag_or(full, present);
        self.put_or(present, 32, t.num_units_in_display_tick);
        self.put_or(present, 32, t.time_scale);
        self.put_flag_or(present, t.equal_picture_interval);
        self.put_uvlc_or(
            t.equal_picture_interval,
            t.num_ticks_per_picture_minus_1 as u32,
        );
    }

    // decoder_model_info
    fn put_model(&mut self, timed: bool, m: DecoderModelInfo)
        ensures { Wrote self.old self.new (put_model timed m) }
    {
        let present = m.decoder_model_info_present;
        self.put_flag_or(timed, present);
        self.put_or(present, 5, m.buffer_delay_length_minus_1);
        self.put_or(present, 32, m.num_units_in_decoding_tick);
        self.put_or(present, 5, m.buffer_removal_time_length_minus_1);
        self.put_or(present, 5, m.frame_presentation_time_length_minus_1);
    }

    // Up to operating_points_cnt_minus_1.
    pub(crate) fn put_opening(&mut self, o: Opening)
        requires { o.timing.num_ticks_per_picture_minus_1 < 2 ^ 32 }
        ensures { Wrote self.old self.new (put_opening o) }
    {
        let full = !o.reduced_still_picture_header;
        self.put(3, o.seq_profile);
        self.put_flag(o.still_picture);
        self.put_flag(o.reduced_still_picture_header);
        self.put_timing(full, o.timing);
        self.put_model(o.timing.timing_info_present, o.model);
        self.put_flag_or(full, o.initial_display_delay_present);
        self.put_or(full, 5, o.operating_points_cnt_minus_1);
    }

    // One operating point.
    fn put_point(&mut self, bounded: BoundedOpening, x: OperatingPoint)
        ensures { Wrote self.old self.new (put_point bounded.opening x) }
    {
        let o = bounded.opening;
        let full = !o.reduced_still_picture_header;
        let model = x.decoder_model_present;
        let delay = x.initial_display_delay_present;
        let n = bounded.delay_bits();
        self.put_or(full, 12, x.idc);
        self.put(5, x.seq_level_idx);
        self.put_flag_or(full & (x.seq_level_idx > 7), x.seq_tier);
        self.put_flag_or(o.model.decoder_model_info_present, model);
        self.put_or(model, n, x.decoder_buffer_delay);
        self.put_or(model, n, x.encoder_buffer_delay);
        self.put_flag_or(model, x.low_delay_mode);
        self.put_flag_or(o.initial_display_delay_present, delay);
        self.put_or(delay, 4, x.initial_display_delay_minus_1);
    }

    // All operating points.
    pub(crate) fn put_points(&mut self, bounded: BoundedOpening, points: &[OperatingPoint])
        ensures { Wrote self.old self.new (put_points bounded.opening points.now) }
    {
        for x in points {
            self.put_point(bounded, *x);
        }
    }
}
