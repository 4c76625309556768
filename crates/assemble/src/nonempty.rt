// Segments of which there is one, as the checks of their frames found.
ghost use Rattle.std.specs.Prelude.{◌≤◌};
ghost use Rattle.blocks.specs.Numbers.{segment_count};

use blocks::numbers::Segments;

#[derive(Clone, Copy)]
pub(crate) struct NonEmpty<'p, 'n> {
    pub all: Segments<'p, 'n>,
    ghost some: { 1 ≤ segment_count all.numbers.now },
}
