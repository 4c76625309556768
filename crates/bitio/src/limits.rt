// The most bytes that an operation takes, else 34, or gives, else 35.
ghost use Rattle.std.specs.Prelude.{◌≡◌};
ghost use Rattle.bitio.specs.Limits.{limited};
ghost use Rattle.bitio.specs.Parse.{accepted};
ghost use Rattle.bitio.specs.Refusal.{says};

use crate::refusal::Refusal;

pub const LIMIT: usize = 4_000_000_000;

// 34 for an input over the limit, which leads everywhere.
#[tactic(auto, unfolding(crate::specs::Limits::limited))]
pub fn check_limit(s: &[u8]) -> Result<(), Refusal>
    ensures { says result ≡ limited s.now (accepted tt) }
{
    if s.len() > LIMIT {
        return Err(Refusal::InputTooLong);
    }
    Ok(())
}
