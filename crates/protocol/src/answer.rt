// What a request is answered: a refusal, or so much of the memory lent to it. What has no room there is left out.
ghost use Rattle.std.specs.Prelude.{◌≡◌, [], ◌∷◌};
ghost use Rattle.bitio.specs.Refusal.{number, says};
ghost use Rattle.protocol.specs.Answers.{line, parts_of, refused_with, numbered, with_numbers, numbers_told, Tells, parted, with_parts};
ghost use Rattle.protocol.specs.Told.{count_told};

use bitio::refusal::Refusal;

#[derive(Clone, Copy)]
pub struct Answer {
    pub refused: Option<Refusal>,
    pub bytes: usize,
    // parts of the bytes; one more, with no end here, may lie behind them
    pub ends: usize,
    pub numbers: usize,
    // a call has changed memory that it does not account for
    pub is_dirty: bool,
}

// So many bytes, in so many parts.
pub fn parts(bytes: usize, ends: usize) -> Answer
    ensures { line result ≡ parts_of bytes ends }
{
    Answer {
        refused: None,
        bytes,
        ends,
        numbers: 0,
        is_dirty: false,
    }
}

pub fn done() -> Answer
    ensures { line result ≡ parts_of 0 0 }
{
    parts(0, 0)
}

pub fn refused(refusal: Refusal) -> Answer
    ensures { line result ≡ refused_with (number refusal) }
{
    Answer {
        refused: Some(refusal),
        ..done()
    }
}

// What was written into lent memory: so many bytes, in no parts.
pub fn count(written: Result<usize, Refusal>) -> Answer
    ensures { line result ≡ count_told (says written) }
{
    written.map_or_else(refused, |n| parts(n, 0))
}

// An answer, and the numbers lent to it.
#[derive(Drop)]
pub struct Numbers<'a> {
    pub answer: Answer,
    pub numbers: &'a mut [u64],
}

impl<'a> Numbers<'a> {
    pub fn new(numbers: &'a mut [u64]) -> Numbers<'a>
        ensures told { numbers_told result ≡ numbered (parts_of 0 0) numbers.old }
        ensures lent { result.numbers.ghost_name ≡ numbers.entry.ghost_name }
    {
        Numbers {
            answer: done(),
            numbers,
        }
    }

    // One more.
    pub fn put(&mut self, v: u64)
        ensures { Tells self.old self.new (v ∷ []) }
    {
        self.answer = self.answer.number(v, self.numbers);
    }

    pub fn put_pair(&mut self, a: u64, b: u64)
        ensures { Tells self.old self.new (a ∷ b ∷ []) }
    {
        self.answer = self.answer.pair(a, b, self.numbers);
    }

    pub fn put_list(&mut self, list: &[u64])
        ensures { Tells self.old self.new list.now }
    {
        self.answer = self.answer.list(list, self.numbers);
    }
}

impl Answer {
    // With one more number.
    #[tactic(auto, unfolding(crate::specs::Answers::with_numbers, crate::specs::Answers::with_number))]
    pub fn number(self, v: u64, numbers: &mut [u64]) -> Answer
        ensures { numbered (line result) numbers.new ≡ with_numbers (numbered (line self) numbers.old) (v ∷ []) }
    {
        if self.numbers >= numbers.len() {
            return self;
        }
        numbers[self.numbers] = v;
        Answer {
            numbers: self.numbers + 1,
            ..self
        }
    }

    #[tactic(auto, using(crate::proofs::AnswerLaws::numbers_more))]
    pub fn pair(self, a: u64, b: u64, numbers: &mut [u64]) -> Answer
        ensures { numbered (line result) numbers.new ≡ with_numbers (numbered (line self) numbers.old) (a ∷ b ∷ []) }
    {
        self.number(a, numbers).number(b, numbers)
    }

    #[tactic(auto, using(crate::proofs::AnswerLaws::number_next), unfolding(crate::specs::Answers::with_numbers))]
    pub fn list(self, list: &[u64], numbers: &mut [u64]) -> Answer
        ensures { numbered (line result) numbers.new ≡ with_numbers (numbered (line self) numbers.old) list.now }
    {
        let mut answer = self;
        for v in list {
            answer = answer.number(*v, numbers);
        }
        answer
    }

    // With one more part.
    #[tactic(auto, unfolding(crate::specs::Answers::with_parts, crate::specs::Answers::with_part, bitio::specs::Lent::has_room, bitio::specs::Lent::pasted))]
    pub fn part(self, src: &[u8], memory: &mut [u8], ends: &mut [u32]) -> Answer
        ensures { parted (line result) memory.new ends.new ≡ with_parts (parted (line self) memory.old ends.old) (src.now ∷ []) }
    {
        let at = self.bytes;
        if self.ends >= ends.len() || at > memory.len() || src.len() > memory.len() - at {
            return self;
        }
        let end = at + src.len();
        memory[at..end].copy_from_slice(src);
        ends[self.ends] = (end % 0x1_0000_0000) as u32;
        Answer {
            bytes: end,
            ends: self.ends + 1,
            ..self
        }
    }
}
