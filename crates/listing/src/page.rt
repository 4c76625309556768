// A page of text that waits to be written out. The programs write it: listing does no output.
ghost use Rattle.std.specs.Prelude.{◌≡◌, ◌+◌, ◌≤◌, length, take, replicate};
ghost use Rattle.bitio.specs.Lent.{Wrote, placed, lent};
ghost use Rattle.listing.specs.Decimal.{field, counted};
ghost use Rattle.listing.specs.Text.{fault_text, unread_text};
ghost use Rattle.listing.specs.Says.{end_or_none};

use crate::decimal::{put_counted, put_field};
use crate::file::Unread;
use crate::text::{put_fault, put_unread};
use obu::writer::put_bytes;
use pictures::fault::Fault;

#[derive(Drop)]
pub struct Page<const ROOM: usize> {
    pub text: [u8; ROOM],
    // where the text that waits ends
    pub end: usize,
    pub ghost in_room: { end ≤ ROOM },
}

impl<const ROOM: usize> Page<ROOM> {
    pub fn new() -> Page<ROOM>
        ensures end { result.end ≡ 0 }
        ensures text { result.text ≡ replicate ROOM 0 }
    {
        Page {
            text: [0; ROOM],
            end: 0,
        }
    }

    // The text that waits.
    pub fn waiting(&self) -> &[u8]
        ensures { result.now ≡ take self.now.end self.now.text }
    {
        &self.text[..self.end]
    }

    pub fn clear(&mut self)
        ensures end { self.new.end ≡ 0 }
        ensures text { self.new.text ≡ self.old.text }
    {
        self.end = 0;
    }

    pub fn put_word(&mut self, word: &[u8])
        requires { self.old.end + length word.now ≤ ROOM }
        ensures end { self.new.end ≡ self.old.end + length word.now }
        ensures text { Wrote self.old.text self.old.end word.now self.new.end self.new.text }
    {
        self.end = put_bytes(&mut self.text, self.end, word);
    }

    // A number and the character behind it: 20 digits at most.
    #[tactic(auto, using(crate::proofs::DecimalLaws::decimal_most, crate::proofs::TextLaws::length_field))]
    pub fn put_number(&mut self, v: u64, last: u8)
        requires { self.old.end + 21 ≤ ROOM }
        ensures end { self.new.end ≤ self.old.end + 21 }
        ensures text { Wrote self.old.text self.old.end (field v last) self.new.end self.new.text }
    {
        self.end = put_field(&mut self.text, self.end, v, last);
    }

    // The same behind a word.
    #[tactic(auto, using(crate::proofs::DecimalLaws::decimal_most, crate::proofs::TextLaws::length_counted))]
    pub fn put_named(&mut self, word: &[u8], v: u64, last: u8)
        requires { self.old.end + length word.now + 21 ≤ ROOM }
        ensures end { self.new.end ≤ self.old.end + length word.now + 21 }
        ensures text { Wrote self.old.text self.old.end (counted word.now v last) self.new.end self.new.text }
    {
        self.end = put_counted(&mut self.text, self.end, word, v, last);
    }

    // Why assembly refuses, on a page of its own.
    #[tactic(auto, using(crate::proofs::WroteLaws::ends_within))]
    pub fn set_refused(&mut self, fault: Fault)
        ensures end { self.new.end ≡ end_or_none (placed self.old.text 0 (fault_text fault)) }
        ensures text { self.new.text ≡ lent self.old.text 0 (fault_text fault) }
    {
        self.end = put_fault(&mut self.text, fault).unwrap_or(0);
    }

    // Why a file was not read, on a page of its own.
    #[tactic(auto, using(crate::proofs::WroteLaws::ends_within))]
    pub fn set_unread(&mut self, unread: Unread)
        ensures end { self.new.end ≡ end_or_none (placed self.old.text 0 (unread_text unread)) }
        ensures text { self.new.text ≡ lent self.old.text 0 (unread_text unread) }
    {
        self.end = put_unread(&mut self.text, unread).unwrap_or(0);
    }
}
