// Reads a file of picture bytes, segments and settings, and prints its unit list (document 01, 'Unit list and cue list').
#![tactic(auto)]

mod answer;

use answer::Memory;

fn main() {
    // one byte more than a file may have, so that a longer one is seen
    let mut file = [0u8; 65537];
    let mut memory = Memory::new();
    let mut out = [0u8; 280000];
    let n = io::read_full(0, &mut file);
    let Ok(end) = memory.answer(&file[..n], &mut out) else {
        return;
    };
    io::write_all(1, &out[..end]);
}
