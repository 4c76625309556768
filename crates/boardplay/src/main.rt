// Reads a file of boardlist's form and prints, for each cue of its list and each container, what each position shows.
#![tactic(auto)]

mod cues;
mod text;

use blocks::numbers::WIDTH;
use cues::{Boards, play};
use listing::file::read_file;
use text::{Page, flush, put_unread};

// kept: the new form is no plainer: listing reads no input, and what follows a reading is each program's own
#[tactic(auto, using(listing::proofs::FileLaws::layout_fits))]
fn main() {
    // one byte more than a file may have, so that a longer one is seen
    let mut bytes = [0u8; 65537];
    let mut numbers = [0u64; WIDTH * 4096];
    let mut page = Page::new();
    let n = io::read_full(0, &mut bytes);
    let file = &bytes[..n];
    match read_file(file, &mut numbers) {
        Ok(layout) => {
            let boards = Boards {
                picture: layout.picture(file),
                segments: layout.numbers(&numbers),
                settings: layout.settings,
            };
            play(&boards, &mut page);
        }
        Err(unread) => put_unread(&mut page, unread),
    }
    flush(&mut page);
}
