// Bytes gathered in a block, where what stands behind them does not matter, which go to an output a block at once. So they may be
// written by words, whatever room the output has.
ghost use Rattle.std.specs.Prelude.{◌≤◌, length};
ghost use Rattle.slices.specs.Block.{RoomMade};

use crate::write::put_bytes;

// The next position of the output, and how many bytes of the block are still to be written there.
#[derive(Clone, Copy)]
pub struct Gathered {
    pub next: usize,
    pub kept: usize,
}

// Writes the n bytes of a block at k, where more than `most` of them leave too little room behind them.
pub fn make_room(out: &mut [u8], k: usize, block: &[u8], n: usize, most: usize) -> Gathered
    requires { n ≤ length block.now }
    ensures { RoomMade most block.now n out.old k out.new result }
{
    if most < n {
        let next = put_bytes(out, k, &block[0..n]);
        return Gathered { next, kept: 0 };
    }
    Gathered { next: k, kept: n }
}
