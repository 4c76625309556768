// su(n) (AV1 4.10.6) of bits that were read as they stand.
ghost use Rattle.std.specs.Prelude.{◌≡◌, ◌<◌};
ghost use Rattle.syntax.specs.Signed.{su};

pub fn su_7(v: u64) -> i64
    requires { v < 128 }
    ensures { result ≡ su 7 v }
{
    let x = v as i64;
    if v < 64 { x } else { x - 128 }
}
