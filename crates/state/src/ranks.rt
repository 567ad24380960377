// The rank of each operation, a byte each: a table that is written once, so that a search need not look a rank up.
ghost use Rattle.std.specs.Prelude.{◌≡◌, [], ◌∷◌, ◌+◌, ◌<◌, ◌≤◌, length, get_or, replicate};
ghost use Rattle.rules.specs.Limits.{most_ops, scratch_size};
ghost use Rattle.rules.specs.Step.{splice};
ghost use Rattle.state.specs.Layout.{rank_at};
ghost use Rattle.words.specs.Read.{Byte};

use crate::{RANKS, Scratch};

// The rank of operation i, in the bytes of scratch, which a search reads as they are lent.
pub fn rank_at(c: &[u8], i: usize) -> usize
    requires { (i < most_ops) × (scratch_size ≤ length c.now) }
    ensures { Byte (get_or c.now (rank_at i) 0) result }
{
    words::byte_at(c, RANKS + i)
}

impl Scratch<'_> {
    // The rank of operation i.
    pub fn rank_at(&self, i: usize) -> usize
        requires { i < most_ops }
        ensures { Byte (get_or self.now (rank_at i) 0) result }
    {
        rank_at(self.bytes, i)
    }

    // The rank of one operation.
    pub fn put_rank(&mut self, i: usize, r: u8)
        requires { i < most_ops }
        ensures { self.new ≡ splice self.old (rank_at i) (r ∷ []) }
    {
        words::put_byte(self.bytes, RANKS + i, r);
    }

    // The rank of n operations from i on: a board's whole script.
    pub fn put_ranks(&mut self, i: usize, n: usize, r: u8)
        requires { i + n ≤ most_ops }
        ensures { self.new ≡ splice self.old (rank_at i) (replicate n r) }
    {
        words::fill(self.bytes, RANKS + i, n, r);
    }
}
