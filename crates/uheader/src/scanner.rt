// A sequence header under which frame headers are scanned, and how many removal times each of them has.
ghost use Rattle.geometry.specs.code.Sizes.{SizesWithin};

use header::seq_header::SequenceHeader;

// The sizes of one that was read are within their bits.
#[derive(Clone, Copy)]
pub struct Scanner<'a> {
    pub header: &'a SequenceHeader,
    pub removals: usize,
    pub ghost sized: { SizesWithin header.now.coding.size },
}
