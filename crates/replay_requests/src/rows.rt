// The requests by name: what each asks for, how it is answered, and what it is lent (docs/FORMATS.md has the same table).
ghost use Rattle.std.specs.Prelude.{◌≡◌, option_map};
ghost use Rattle.replay_requests.specs.Rows.{row, first_row, row_of};

use protocol::kinds::{Before, Format, Item, Kind, NUMBER};
use protocol::lent::{Share, Shares};

#[derive(Clone, Copy)]
pub enum Operation {
    Bits,
    Uvlc,
    Leb,
    Lebput,
    Obus,
    Obuput,
    Seq,
    Support,
    Emit,
    Timed,
    Frame,
    Stream,
    Annexb,
    Wstream,
    Wannexb,
    Canon,
    Packets,
    Assemble,
    Play,
    Scan,
    Slot,
}

#[derive(Clone, Copy)]
pub(crate) struct Row {
    pub name: &'static [u8],
    pub operation: Operation,
    pub asks: Format<'static>,
    pub answers: Format<'static>,
    pub lends: Shares,
}

const BYTES: Item = Item {
    before: Before::Space,
    kind: Kind::Bytes,
};

const NUMBER_32: Item = Item {
    before: Before::Space,
    kind: Kind::Number32,
};

const BYTE: Item = Item {
    before: Before::Space,
    kind: Kind::Byte,
};

const OPTIONAL_BYTE: Item = Item {
    before: Before::Space,
    kind: Kind::OptionalByte,
};

const COUNT: Item = Item {
    before: Before::Space,
    kind: Kind::Count,
};

const NAMED: Item = Item {
    before: Before::Space,
    kind: Kind::Named,
};

const TOLD: Item = Item {
    before: Before::Space,
    kind: Kind::Told,
};

const COLON_BYTES: Item = Item {
    before: Before::Colon,
    kind: Kind::Bytes,
};

const COLON_OPTIONAL_BYTE: Item = Item {
    before: Before::Colon,
    kind: Kind::OptionalByte,
};

const COMMA_NUMBER: Item = Item {
    before: Before::Comma,
    kind: Kind::Number,
};

const OWN: Shares = Shares {
    is_own: true,
    bytes: Share::Nothing,
    ends: Share::Nothing,
    numbers: Share::Nothing,
};

const FEW_BYTES: Shares = Shares {
    is_own: false,
    bytes: Share::Few,
    ends: Share::Nothing,
    numbers: Share::Nothing,
};

const ALL_BYTES: Shares = Shares {
    is_own: false,
    bytes: Share::All,
    ends: Share::Nothing,
    numbers: Share::Nothing,
};

const BYTES_AND_ENDS: Shares = Shares {
    is_own: false,
    bytes: Share::All,
    ends: Share::All,
    numbers: Share::Nothing,
};

const ALL_THREE: Shares = Shares {
    is_own: false,
    bytes: Share::All,
    ends: Share::All,
    numbers: Share::All,
};

const ALL_AND_OWN: Shares = Shares {
    is_own: true,
    bytes: Share::All,
    ends: Share::All,
    numbers: Share::All,
};

// A name and its operation; the fields that it asks for, and those that may follow them any number of times; the same of its
// answer; what it is lent.
macro_rules! row {
    ($name:literal $operation:ident: $asks:tt $more:tt => $answers:tt $rest:tt, $lends:ident) => {
        Row {
            name: $name,
            operation: Operation::$operation,
            asks: Format {
                items: &$asks,
                repeated: &$more,
            },
            answers: Format {
                items: &$answers,
                repeated: &$rest,
            },
            lends: $lends,
        }
    };
}

static ROWS: [Row; 21] = [
    row!(b"bits" Bits: [BYTES, NUMBER, NUMBER] [] => [NUMBER, NUMBER] [], OWN),
    row!(b"uvlc" Uvlc: [BYTES, NUMBER] [] => [NUMBER, NUMBER] [], OWN),
    row!(b"leb" Leb: [BYTES] [] => [NUMBER, NUMBER] [], OWN),
    row!(b"lebput" Lebput: [NUMBER] [] => [BYTES] [], FEW_BYTES),
    row!(b"obus" Obus: [BYTES] [] => [NUMBER] [NUMBER, COLON_OPTIONAL_BYTE, COLON_BYTES], OWN),
    row!(b"obuput" Obuput: [BYTE, OPTIONAL_BYTE, BYTES] [] => [BYTES] [], ALL_BYTES),
    row!(b"seq" Seq: [BYTES] [] => [NUMBER] [COMMA_NUMBER], OWN),
    row!(b"support" Support: [BYTES] [] => [] [], OWN),
    row!(b"emit" Emit: [BYTES] [] => [BYTES] [], FEW_BYTES),
    row!(b"timed" Timed: [BYTES, NUMBER_32, NUMBER_32] [] => [BYTES] [], FEW_BYTES),
    row!(b"frame" Frame: [BYTES, BYTES] [] => [] [NUMBER], OWN),
    row!(b"stream" Stream: [BYTES] [] => [COUNT] [BYTES], BYTES_AND_ENDS),
    row!(b"annexb" Annexb: [BYTES] [] => [COUNT] [BYTES], BYTES_AND_ENDS),
    row!(b"wstream" Wstream: [] [BYTES] => [BYTES] [], ALL_BYTES),
    row!(b"wannexb" Wannexb: [] [BYTES] => [BYTES] [], ALL_BYTES),
    row!(b"canon" Canon: [BYTES] [] => [BYTES] [], ALL_BYTES),
    row!(b"packets" Packets: [] [NUMBER, BYTES] => [COUNT] [NUMBER, BYTES], ALL_THREE),
    row!(b"assemble" Assemble: [NUMBER, NUMBER_32, NUMBER_32] [BYTES, BYTES, NUMBER] => [NUMBER, NUMBER, NAMED] [TOLD], ALL_AND_OWN),
    row!(b"play" Play: [] [NUMBER, COLON_BYTES] => [] [TOLD], OWN),
    row!(b"scan" Scan: [BYTES] [BYTES] => [] [TOLD], OWN),
    row!(b"slot" Slot: [BYTE] [] => [NUMBER] [], OWN),
];

#[tactic(auto, unfolding(crate::specs::Rows::first_row))]
fn find(rows: &[Row], name: &[u8]) -> Option<Row>
    ensures { result ≡ first_row name.now rows.now }
{
    rows.iter().copied().find(|row| row.name == name)
}

pub(crate) fn row_of(name: &[u8]) -> Option<Row>
    ensures { option_map row result ≡ row_of name.now }
{
    find(&ROWS, name)
}
