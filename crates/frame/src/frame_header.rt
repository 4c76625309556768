// The frame header (AV1 5.9.2), up to refresh_frame_flags.
ghost use Rattle.std.specs.Prelude.{◌≡◌};
ghost use Rattle.frame.specs.FrameType.{frame_type_of, type_number, is_intra};

pub mod read;
pub mod sections;

pub const PRIMARY_REF_NONE: u64 = 7;

// frame_type (AV1 6.8.2).
#[derive(Clone, Copy, PartialEq, Eq)]
pub enum FrameType {
    Key = 0,
    Inter = 1,
    IntraOnly = 2,
    Switch = 3,
}

impl FrameType {
    pub fn is_intra(self) -> bool
        ensures { result ≡ is_intra self }
    {
        matches!(self, FrameType::Key | FrameType::IntraOnly)
    }
}

// That of two bits; a number above 3 is neither intra nor a switch.
impl From<u64> for FrameType {
    ghost from_gives = { λ bits t. t ≡ frame_type_of bits };

    fn from(bits: u64) -> FrameType {
        match bits {
            0 => FrameType::Key,
            2 => FrameType::IntraOnly,
            3 => FrameType::Switch,
            _ => FrameType::Inter,
        }
    }
}

impl From<FrameType> for u64 {
    ghost from_gives = { λ t n. n ≡ type_number t };

    fn from(t: FrameType) -> u64 {
        t as u64
    }
}

// The first fields of a frame that is not shown again.
#[derive(Clone, Copy)]
pub struct FrameStart {
    pub frame_type: FrameType,
    pub show_frame: bool,
    pub showable_frame: bool,
    pub error_resilient_mode: bool,
}

// What stands between error_resilient_mode and the removal times.
#[derive(Clone, Copy)]
pub struct FrameModes {
    pub disable_cdf_update: bool,
    pub allow_screen_content_tools: bool,
    pub force_integer_mv: bool,
    pub frame_size_override_flag: bool,
    pub order_hint: u64,
    pub primary_ref_frame: u64,
}

// All that stands before the removal times.
#[derive(Clone, Copy)]
pub struct FrameFront {
    pub start: FrameStart,
    pub modes: FrameModes,
}

// What a frame's own header says of it.
#[derive(Clone, Copy)]
pub struct FrameInfo {
    pub frame_type: FrameType,
    pub show_frame: bool,
    pub showable_frame: bool,
    pub refresh_frame_flags: u64,
    pub order_hint: u64,
}

#[derive(Clone, Copy)]
pub enum FrameHeaderInfo {
    // show_existing_frame: the slot shown
    Existing(u64),
    Frame(FrameInfo),
}
