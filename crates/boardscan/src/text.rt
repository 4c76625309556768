// The lines of a board, on a page that is written out before the next board's.
ghost use Rattle.std.specs.Prelude.{◌≡◌, ◌+◌, ◌≤◌};

use crate::scan::SegmentScan;
use bitio::refusal::Refusal;
use geometry::size::Size;
use geometry::slots::RefSlot;
use listing::file::Unread;

// more than the lines of any board need
const ROOM: usize = 2048;

pub(crate) type Page = listing::page::Page<ROOM>;

// Writes out the text that waits.
pub(crate) fn flush(page: &mut Page)
    ensures { page.new.end ≡ 0 }
{
    io::write_all(1, page.waiting());
    page.clear();
}

fn put_size(page: &mut Page, size: Size, last: u8)
    requires { page.old.end + 128 ≤ 2048 }
    ensures { page.new.end ≤ page.old.end + 128 }
{
    page.put_number(u64::from(size.frame_width), b'x');
    page.put_number(u64::from(size.frame_height), b' ');
    page.put_named(b"upscaled ", u64::from(size.upscaled_width), b' ');
    page.put_named(b"render ", u64::from(size.render_width), b'x');
    page.put_number(u64::from(size.render_height), last);
}

fn put_answer(page: &mut Page, answer: Result<Size, Refusal>)
    requires { page.old.end + 128 ≤ 2048 }
    ensures { page.new.end ≤ page.old.end + 128 }
{
    match answer {
        Ok(size) => put_size(page, size, b'\n'),
        Err(refusal) => page.put_named(b"refused ", u64::from(u32::from(refusal)), b'\n'),
    }
}

fn put_hint(page: &mut Page, slot: RefSlot)
    requires { page.old.end + 32 ≤ 2048 }
    ensures { page.new.end ≤ page.old.end + 32 }
{
    if slot.is_key_frame {
        page.put_named(b"hint ", slot.order_hint, b' ');
        page.put_word(b"key\n");
    } else {
        page.put_named(b"hint ", slot.order_hint, b'\n');
    }
}

fn put_slot(page: &mut Page, i: usize, slot: RefSlot)
    requires { page.old.end + 192 ≤ 2048 }
    ensures { page.new.end ≤ page.old.end + 192 }
{
    page.put_named(b"slot ", i as u64, b' ');
    put_size(page, slot.size, b' ');
    put_hint(page, slot);
}

fn put_slots(page: &mut Page, slots: &[RefSlot; 8])
    requires { page.old.end + 1536 ≤ 2048 }
    ensures { page.new.end ≤ page.old.end + 1536 }
{
    for (i, slot) in slots.iter().enumerate() {
        put_slot(page, i, *slot);
    }
}

// All lines of board i.
pub(crate) fn put_segment(page: &mut Page, i: usize, scan: &SegmentScan) {
    flush(page);
    page.put_named(b"segment ", i as u64, b'\n');
    page.put_word(b"key ");
    put_answer(page, scan.key);
    page.put_word(b"golden ");
    put_answer(page, scan.golden);
    put_slots(page, &scan.slots);
}

// Why there are no boards.
pub(crate) fn put_unread(page: &mut Page, unread: Unread) {
    flush(page);
    page.set_unread(unread);
}
