// The lines that boardplay prints. They wait on a page that is written out whenever one more may have no room there.
ghost use Rattle.std.specs.Prelude.{◌≡◌, ◌+◌, ◌≤◌};

use listing::file::Unread;
use pictures::fault::Fault;
use playback::play::Shown;
use playback::way::Form;

const ROOM: usize = 65536;
// no line has more
const LINE: usize = 64;

pub(crate) type Page = listing::page::Page<ROOM>;

// Writes out the text that waits.
pub(crate) fn flush(page: &mut Page)
    ensures { page.new.end ≡ 0 }
{
    io::write_all(1, page.waiting());
    page.clear();
}

// Makes room for a line.
fn make_room(page: &mut Page)
    ensures { page.new.end + 64 ≤ 65536 }
{
    if page.end > ROOM - LINE {
        flush(page);
    }
}

fn put_cue(page: &mut Page, cue: u32, form: Form) {
    make_room(page);
    page.put_named(b"cue ", u64::from(cue), b' ');
    match form {
        Form::Stream => page.put_word(b"stream\n"),
        Form::AnnexB => page.put_word(b"annexb\n"),
    }
}

fn put_position(page: &mut Page, position: u64, shown: Shown) {
    make_room(page);
    page.put_number(position, b' ');
    match shown {
        Ok(None) => page.put_word(b"shows nothing\n"),
        Ok(Some(shown)) => page.put_named(b"shows ", shown, b'\n'),
        Err(refusal) => page.put_named(b"refused ", u64::from(u32::from(refusal)), b'\n'),
    }
}

// What the positions from a cue on show.
pub(crate) fn put_shown(page: &mut Page, cue: u32, form: Form, shown: &[Shown]) {
    put_cue(page, cue, form);
    for (i, position) in shown.iter().enumerate() {
        put_position(page, u64::from(cue) + i as u64, *position);
    }
}

// Why a list is not played.
pub(crate) fn put_fault(page: &mut Page, fault: Fault) {
    flush(page);
    page.set_refused(fault);
}

// Why there is no list.
pub(crate) fn put_unread(page: &mut Page, unread: Unread) {
    flush(page);
    page.set_unread(unread);
}
