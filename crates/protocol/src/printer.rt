// Answers as lines, by a format, from the memory that they account for.
ghost use Rattle.std.specs.Prelude.{◌≡◌, ◌-◌, ◌^◌, option_map};
ghost use Rattle.protocol.specs.Answers.{line};
ghost use Rattle.protocol.specs.Kinds.{form};
ghost use Rattle.protocol.specs.Marked.{is_clean};
ghost use Rattle.protocol.specs.Typed.{typed};
ghost use Rattle.protocol.specs.Printed.{left_told, printing, part_end, part_start, part_text, value_text, item_text, is_over, told_at, opened_of, opened_at, next_of, past_of, items_text, print_start, format_of, head_text, answer_text, bad_line};

use crate::answer::Answer;
use crate::kinds::{Format, Item, Kind, NO_BYTE, NUMBER, TOLD};
use crate::lent::{BYTE_MARK, END_MARK, NUMBER_MARK, is_marked};
use crate::memory::number_at;
use crate::output::Output;
use bitio::ends::end_of;

// How far an answer has been printed.
#[derive(Clone, Copy)]
struct Printed<'a> {
    // the item that comes, those told that follow it, and those of the format behind them
    item: Item,
    told: u64,
    format: Format<'a>,
    // how many parts and numbers are behind it
    parts: usize,
    numbers: usize,
}

impl<'a> Printed<'a> {
    fn start(format: Format<'a>) -> Printed<'a>
        ensures { printing result ≡ print_start (form format.entry) }
    {
        Printed {
            item: NUMBER,
            told: 0,
            format,
            parts: 0,
            numbers: 0,
        }
    }

    // At the first of the items that a number tells, so many numbers being behind.
    fn told_at(self, told: u64, numbers: usize) -> Printed<'a>
        ensures { printing result ≡ told_at told numbers (printing self.entry) }
    {
        Printed {
            item: Item::from(told % 256),
            told: told / 256,
            numbers,
            ..self
        }
    }

    // Behind an item that took a part or a number.
    fn past(self) -> Printed<'a>
        ensures { printing result ≡ past_of (printing self.entry) }
    {
        match self.item.kind {
            Kind::Bytes => Printed {
                parts: self.parts.saturating_add(1),
                ..self
            },
            Kind::Count => self,
            _ => Printed {
                numbers: self.numbers.saturating_add(1),
                ..self
            },
        }
    }
}

// What a call has left: its answer, and the memory lent to it.
#[derive(Clone, Copy)]
pub struct Left<'a> {
    pub answer: Answer,
    pub memory: &'a [u8],
    pub ends: &'a [u32],
    pub numbers: &'a [u64],
}

impl<'a> Left<'a> {
    // Whether the call has left all memory as it was that its answer does not account for.
    fn is_clean(self, is_own: bool) -> bool
        ensures { result ≡ is_clean is_own (line self.entry.answer) self.entry.memory.now self.entry.ends.now self.entry.numbers.now }
    {
        if is_own {
            return !self.answer.is_dirty;
        }
        is_marked(self.memory, self.answer.bytes, BYTE_MARK)
            && is_marked(self.ends, self.answer.ends, END_MARK)
            && is_marked(self.numbers, self.answer.numbers, NUMBER_MARK)
    }

    // Where part i ends: the last one with all the answer's bytes.
    fn part_end(self, i: usize) -> usize
        ensures { result ≡ part_end (line self.entry.answer) self.entry.ends.now i }
    {
        if i < self.answer.ends {
            end_of(self.ends, i)
        } else {
            self.answer.bytes
        }
    }

    fn part_start(self, i: usize) -> usize
        ensures { result ≡ part_start (line self.entry.answer) self.entry.ends.now i }
    {
        if i == 0 { 0 } else { self.part_end(i - 1) }
    }

    #[tactic(auto, unfolding(crate::specs::Printed::part_text, bitio::specs::Lent::span))]
    fn put_part(self, i: usize, out: &mut Output)
        ensures { out.new ≡ typed out.old (part_text (line self.entry.answer) self.entry.memory.now self.entry.ends.now i) }
    {
        let start = self.part_start(i);
        let end = self.part_end(i);
        if start <= end && end <= self.memory.len() {
            out.put_hex(&self.memory[start..end]);
        } else {
            out.put_text(b"dirty");
        }
    }

    // Whether no more is left for an item of this kind.
    fn is_over(self, kind: Kind, printed: Printed) -> bool
        ensures { result ≡ is_over (line self.entry.answer) kind (printing printed.entry) }
    {
        if kind == Kind::Bytes {
            printed.parts >= self.answer.ends
        } else {
            printed.numbers >= self.answer.numbers
        }
    }

    // At the first item that the next number tells, in place of all but the repeated ones.
    fn opened<'f>(self, printed: Printed<'f>) -> Printed<'f>
        ensures { printing result ≡ opened_of (left_told self.entry) (printing printed.entry) }
    {
        let told = number_at(self.numbers, printed.numbers);
        let format = Format {
            items: &[],
            ..printed.format
        };
        let opened = Printed { format, ..printed };
        opened.told_at(told, printed.numbers.saturating_add(1))
    }

    // At the first item of the format, with the rest of it.
    fn opened_at<'f>(self, item: Item, format: Format<'f>, printed: Printed<'f>) -> Printed<'f>
        ensures { printing result ≡ opened_at (left_told self.entry) item (form format.entry) (printing printed.entry) }
    {
        let here = Printed {
            item,
            format,
            ..printed
        };
        if u64::from(item) == TOLD {
            self.opened(here)
        } else {
            here
        }
    }

    // At the next item, if there is one: repeated kinds end where there is no more for the first of them.
    #[tactic(auto, unfolding(crate::specs::Printed::next_of))]
    fn next<'f>(self, printed: Printed<'f>) -> Option<Printed<'f>>
        ensures { option_map printing result ≡ next_of (left_told self.entry) (printing printed.entry) }
    {
        if printed.told % 256 == TOLD {
            return Some(self.opened(printed));
        }
        if printed.told > 0 {
            return Some(printed.told_at(printed.told, printed.numbers));
        }
        let (item, format) = printed.format.split()?;
        if printed.format.items.is_empty() && self.is_over(item.kind, printed) {
            return None;
        }
        Some(self.opened_at(item, format, printed))
    }

    // The item that comes, behind what stands before it.
    #[tactic(auto, unfolding(crate::specs::Printed::item_text, crate::specs::Typed::typed))]
    fn put_item(self, printed: Printed, out: &mut Output)
        ensures { out.new ≡ typed out.old (item_text (left_told self.entry) (printing printed.entry)) }
    {
        out.put_text(&[printed.item.before.separator()]);
        let v = number_at(self.numbers, printed.numbers);
        match printed.item.kind {
            Kind::Bytes => self.put_part(printed.parts, out),
            Kind::Named => self.put_part(v as usize, out),
            Kind::Count => out.put_number(self.answer.ends as u64),
            kind => put_value(kind, v, out),
        }
    }

    // All items. Nothing says that kinds which take nothing end, so the turns are counted up to a number that no run reaches.
    fn put_items(self, format: Format, out: &mut Output)
        ensures { out.new ≡ typed out.old (items_text (2 ^ 64 - 1) (left_told self.entry) (print_start (form format.entry))) }
    {
        let mut printed = Printed::start(format);
        for _ in 0..u64::MAX {
            let Some(next) = self.next(printed) else {
                return;
            };
            self.put_item(next, out);
            printed = next.past();
        }
    }
}

#[tactic(auto, unfolding(crate::specs::Typed::typed))]
fn put_value(kind: Kind, v: u64, out: &mut Output)
    ensures { out.new ≡ typed out.old (value_text kind v) }
{
    match kind {
        Kind::OptionalByte if v == NO_BYTE => out.put_text(b"-"),
        Kind::Refused => {
            out.put_text(b"no ");
            out.put_number(v);
        }
        Kind::Negative => {
            out.put_text(b"-");
            out.put_number(v);
        }
        Kind::Slots => out.put_text(b"slots"),
        _ => out.put_number(v),
    }
}

// `ok`, or `no` and the refusal's number.
fn put_head(answer: Answer, out: &mut Output)
    ensures { out.new ≡ typed out.old (head_text (line answer).refusal) }
{
    match answer.refused {
        Some(refusal) => put_value(Kind::Refused, u64::from(u32::from(refusal)), out),
        None => out.put_text(b"ok"),
    }
}

// A refusal's line has its number, and what numbers come with it.
fn format_of(answer: Answer, format: Format) -> Format
    ensures { form result ≡ format_of (line answer).refusal (form format.entry) }
{
    if answer.refused.is_none() {
        return format;
    }
    Format {
        items: &[],
        repeated: &[NUMBER],
    }
}

// The line of an answer, from what the call left in the memory lent to it.
pub fn put_answer(left: Left<'_>, format: Format, is_own: bool, out: &mut Output)
    ensures { out.new ≡ typed out.old (answer_text (left_told left.entry) (form format.entry) is_own) }
{
    let answer = left.answer;
    put_head(answer, out);
    left.put_items(format_of(answer, format), out);
    if left.is_clean(is_own) {
        out.put_text(b"\n");
    } else {
        out.put_text(b" dirty\n");
    }
}

pub fn bad_line(out: &mut Output)
    ensures { out.new ≡ typed out.old bad_line }
{
    out.put_text(b"bad line\n");
}
