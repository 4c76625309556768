// The blocks of a segment, one after the other.
ghost use Rattle.std.specs.Prelude.{◌≡◌, ◌≤◌};

// A block: how many units it has, and whether its first is a key.
#[derive(Clone, Copy)]
pub(crate) struct Block {
    pub size: usize,
    pub key: bool,
}

// The blocks of a segment that are still to come, by its frames left and whether it has had a golden.
#[derive(Drop)]
pub(crate) struct Blocks {
    gop: usize,
    left: usize,
    after: bool,
    ghost some: { 1 ≤ gop },
}

impl Blocks {
    ghost use Rattle.blocks.specs.Blocks.{kinds};
    ghost use Rattle.blocks.specs.code.Steps.{units_left};

    pub fn new(gop: usize, frames: usize) -> Blocks
        requires { 1 ≤ gop }
        ensures { units_left result ≡ kinds gop frames }
    {
        Blocks {
            gop,
            left: frames,
            after: false,
        }
    }
}

impl Iterator for Blocks {
    ghost use Rattle.std.specs.Iterator.{at_most};
    ghost use Rattle.blocks.specs.code.Steps.{GivesBlock};

    type Item = Block;

    ghost next_gives = { GivesBlock };

    ghost remaining = { λ it. at_most it.left };

    fn next(&mut self) -> Option<Block> {
        if self.left == 0 {
            return None;
        }
        let size = self.left.min(self.gop);
        let key = !self.after || size >= 2;
        self.left -= size;
        self.after |= size >= 2;
        Some(Block { size, key })
    }
}
