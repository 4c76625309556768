// skip_mode_params (AV1 5.9.22).
ghost use Rattle.std.specs.Prelude.{◌≡◌};
ghost use Rattle.bitio.specs.Read.{reading};
ghost use Rattle.syntax.specs.Syntax.{run};
ghost use Rattle.params.specs.SkipMode as spec;

use bitio::reader::{BitReader, Read};

#[derive(Clone, Copy)]
pub struct OrderHints {
    // of which three bits count
    pub order_hint_bits_minus_1: u64,
    pub order_hint: u64,
    // those of the seven references
    pub refs: [u64; 7],
}

impl OrderHints {
    fn bits(&self) -> u64
        ensures { result ≡ spec.hint_bits self.now }
    {
        self.order_hint_bits_minus_1 % 8 + 1
    }

    // get_relative_dist (AV1 5.9.3), from 0 on around a circle.
    fn relative_dist(&self, a: u64, b: u64) -> u64
        ensures { result ≡ spec.relative_dist (spec.hint_bits self.now) a b }
    {
        let whole = 1u64 << self.bits();
        (a % whole + (whole - b % whole)) % whole
    }

    #[tactic(auto, unfolding(crate::specs::SkipMode::is_before))]
    fn is_before(&self, a: u64, b: u64) -> bool
        ensures { result ≡ spec.is_before (spec.hint_bits self.now) a b }
    {
        let half = 1u64 << (self.bits() - 1);
        half <= self.relative_dist(a, b)
    }

    #[tactic(auto, unfolding(crate::specs::SkipMode::is_after))]
    fn is_after(&self, a: u64, b: u64) -> bool
        ensures { result ≡ spec.is_after (spec.hint_bits self.now) a b }
    {
        let half = 1u64 << (self.bits() - 1);
        let d = self.relative_dist(a, b);
        0 < d && d < half
    }

    // The nearest reference before the frame, when one more is seen.
    #[tactic(auto, unfolding(crate::specs::SkipMode::nearer))]
    fn nearer(&self, best: Option<u64>, hint: u64) -> Option<u64>
        ensures { result ≡ spec.nearer (spec.hint_bits self.now) self.now.order_hint best hint }
    {
        let is_nearer = best.is_none_or(|nearest| self.is_after(hint, nearest));
        if self.is_before(hint, self.order_hint) && is_nearer {
            Some(hint)
        } else {
            best
        }
    }

    #[tactic(auto, unfolding(crate::specs::SkipMode::forward))]
    fn forward(&self) -> Option<u64>
        ensures { result ≡ spec.forward (spec.hint_bits self.now) self.now.order_hint self.now.refs }
    {
        self.refs
            .iter()
            .fold(None, |best, hint| self.nearer(best, *hint))
    }

    #[tactic(auto, unfolding(crate::specs::SkipMode::skip_mode_allowed))]
    fn skip_mode_allowed(&self) -> bool
        ensures { result ≡ spec.skip_mode_allowed (spec.hint_bits self.now) self.now.order_hint self.now.refs }
    {
        let Some(nearest) = self.forward() else {
            return false;
        };
        self.refs
            .iter()
            .any(|hint| self.is_after(*hint, self.order_hint))
            || self.refs.iter().any(|hint| self.is_before(*hint, nearest))
    }
}

// on: an inter frame with reference_select, and order hints.
#[tactic(auto, unfolding(syntax::specs::Syntax::run, bitio::specs::Fields::read_flag, bitio::specs::Fields::flag_or, crate::specs::SkipMode::skip_mode_params))]
pub fn skip_mode_params(r: BitReader, s: &[u8], on: bool, o: OrderHints) -> Read<bool>
    ensures { reading result ≡ run (spec.skip_mode_params on o) s.now r.pos }
{
    r.flag_or(s, on && o.skip_mode_allowed(), false)
}
