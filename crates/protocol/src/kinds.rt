// What fields and printed items are, and what stands before each.
ghost use Rattle.std.specs.Prelude.{◌≡◌, ◌*◌, ◌^◌, ◌<◌, ◌≤◌, length};
ghost use Rattle.protocol.specs.Kinds.{separator_of, largest_of, item_code, item_of, packed, split_of, split_said, form, stop_of};

#[derive(Clone, Copy, PartialEq, Eq)]
pub enum Kind {
    // a byte string; of an answer its next part
    Bytes = 1,
    Number = 2,
    // one of 32 bits
    Number32 = 3,
    // one of 8
    Byte = 4,
    // the same, or `-` for none
    OptionalByte = 5,
    // of answers alone: how many parts there are,
    Count = 6,
    // the part that a number names,
    Named = 7,
    // `no` and a number,
    Refused = 8,
    // items whose kinds stand among the numbers, before theirs, as one number,
    Told = 9,
    // a number below 0, told without its sign,
    Negative = 10,
    // and the word `slots`, whatever the number
    Slots = 11,
}

// What an optional byte that is not given is read as.
pub const NO_BYTE: u64 = 256;

impl Kind {
    // The largest number of a field of this kind.
    pub(crate) fn largest(self) -> Option<u64>
        ensures { result ≡ largest_of self }
    {
        match self {
            Kind::Number => Some(u64::MAX),
            Kind::Number32 => Some(0xffff_ffff),
            Kind::Byte | Kind::OptionalByte => Some(255),
            _ => None,
        }
    }
}

#[derive(Clone, Copy)]
pub enum Before {
    Space = 0,
    Colon = 1,
    Comma = 2,
}

impl Before {
    pub(crate) fn separator(self) -> u8
        ensures { result ≡ separator_of self }
    {
        match self {
            Before::Space => b' ',
            Before::Colon => b':',
            Before::Comma => b',',
        }
    }
}

#[derive(Clone, Copy)]
pub struct Item {
    pub before: Before,
    pub kind: Kind,
}

pub const NUMBER: Item = Item {
    before: Before::Space,
    kind: Kind::Number,
};

// What tells a further number of told items.
pub(crate) const TOLD: u64 = Kind::Told as u64;

// The two hexadecimal digits that tell an item among an answer's numbers.
impl From<Item> for u64 {
    ghost from_gives = { λ item code. (code ≡ item_code item) × (code < 256) };

    #[tactic(auto, using(crate::proofs::KindLaws::code_small))]
    fn from(item: Item) -> u64 {
        16 * item.before as u64 + item.kind as u64
    }
}

// And back, from the two lowest digits: any other digit tells a number, or a space before it.
impl From<u64> for Item {
    ghost from_gives = { λ code item. item ≡ item_of code };

    #[tactic(auto, unfolding(crate::specs::Kinds::kind_of, crate::specs::Kinds::before_of))]
    fn from(code: u64) -> Item {
        let before = match code / 16 % 16 {
            1 => Before::Colon,
            2 => Before::Comma,
            _ => Before::Space,
        };
        let kind = match code % 16 {
            1 => Kind::Bytes,
            5 => Kind::OptionalByte,
            6 => Kind::Count,
            7 => Kind::Named,
            8 => Kind::Refused,
            10 => Kind::Negative,
            11 => Kind::Slots,
            _ => Kind::Number,
        };
        Item { before, kind }
    }
}

// Items told by one number, the first in its lowest digits.
// kept: an answer is lent fixed memory, where a number for each of its kinds has no room
pub fn packed(items: &[Item]) -> u64
    requires { length items.now ≤ 8 }
    ensures value { result ≡ packed items.now }
    ensures bound { result < 2 ^ (8 * length items.now) }
{
    match items {
        [] => 0,
        [first, others @ ..] => u64::from(*first) + 256 * packed(others),
    }
}

// Items that follow each other, and those that may follow them any number of times.
#[derive(Clone, Copy)]
pub struct Format<'a> {
    pub items: &'a [Item],
    pub repeated: &'a [Item],
}

impl<'a> Format<'a> {
    // The first item, if there is one, and what follows it.
    #[tactic(auto, unfolding(crate::specs::Kinds::split_of))]
    pub(crate) fn split(self) -> Option<(Item, Format<'a>)>
        ensures { split_said result ≡ split_of (form self.entry) }
    {
        let items = if self.items.is_empty() {
            self.repeated
        } else {
            self.items
        };
        let (first, items) = items.split_first()?;
        let format = Format { items, ..self };
        Some((*first, format))
    }

    // What stands before the first item: a space where there is none.
    pub(crate) fn stop(self) -> u8
        ensures { result ≡ stop_of (form self.entry) }
    {
        self.split()
            .map_or(b' ', |(item, _)| item.before.separator())
    }
}
