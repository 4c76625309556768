// Document 01's gop_size, fps and fps_den.
#[derive(Clone, Copy)]
pub struct Settings {
    pub gop: u64,
    pub fps: u32,
    pub den: u32,
}
