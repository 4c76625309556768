// Reads a file of boardlist's form and prints, for each board, the sizes of its key and its golden and what the slots hold
// behind both (02 §2).
#![tactic(auto)]

mod scan;
mod text;

use blocks::numbers::{Segments, WIDTH, segment_count};
use listing::file::read_file;
use scan::scan_segment;
use text::{Page, flush, put_segment, put_unread};

// Board by board, so that the text of any number of them has room.
fn put_segments(segments: Segments, page: &mut Page) {
    for i in 0..segment_count(segments.numbers) {
        put_segment(page, i, &scan_segment(segments.key(i), segments.golden(i)));
    }
}

// kept: the new form is no plainer: listing reads no input, and what follows a reading is each program's own
#[tactic(auto, using(listing::proofs::FileLaws::layout_fits))]
fn main() {
    // one byte more than a file may have, so that a longer one is seen
    let mut bytes = [0u8; 65537];
    let mut numbers = [0u64; WIDTH * 4096];
    let mut page = Page::new();
    let n = io::read_full(0, &mut bytes);
    let file = &bytes[..n];
    match read_file(file, &mut numbers) {
        Ok(layout) => {
            let segments = Segments {
                picture: layout.picture(file),
                numbers: layout.numbers(&numbers),
            };
            put_segments(segments, &mut page);
        }
        Err(unread) => put_unread(&mut page, unread),
    }
    flush(&mut page);
}
