// Signed numbers, each with its kind told.
ghost use Rattle.std.specs.Prelude.{◌≡◌};
ghost use Rattle.protocol.specs.Answers.{Tells};
ghost use Rattle.protocol.specs.Kinds.{item_code, after_colon};
ghost use Rattle.replay_scan.specs.Scans.{sign_kind, delta_fields};

use protocol::answer::Numbers;
use protocol::kinds::{Before, Item, Kind};
use uheader::scan::Deltas;

// What tells a number's sign: the number stands behind it without it.
fn sign_code(v: i64) -> u64
    ensures { result ≡ item_code (after_colon (sign_kind v)) }
{
    let item = Item {
        before: Before::Colon,
        kind: if v < 0 { Kind::Negative } else { Kind::Number },
    };
    u64::from(item)
}

pub(crate) fn put_deltas(d: Deltas, numbers: &mut Numbers<'_>)
    ensures { Tells numbers.old numbers.new (delta_fields d) }
{
    let fields = [
        sign_code(d.y_dc),
        d.y_dc.unsigned_abs(),
        sign_code(d.u_dc),
        d.u_dc.unsigned_abs(),
        sign_code(d.u_ac),
        d.u_ac.unsigned_abs(),
        sign_code(d.v_dc),
        d.v_dc.unsigned_abs(),
        sign_code(d.v_ac),
        d.v_ac.unsigned_abs(),
    ];
    numbers.put_list(&fields);
}
