// For each operation that names a slot, a wait or a query, the one that holds it, two bytes each: a table that is written once.
ghost use Rattle.std.specs.Prelude.{◌≡◌, ◌<◌};
ghost use Rattle.rules.specs.Limits.{most_ops};
ghost use Rattle.rules.specs.Sheet.{two};
ghost use Rattle.rules.specs.Step.{splice};
ghost use Rattle.rules.specs.Report.{low_two};
ghost use Rattle.state.specs.Layout.{waits_at, word_at};
ghost use Rattle.words.specs.Read.{Word};

use crate::{Scratch, WAITS};

impl Scratch<'_> {
    // The operation that holds the slot which operation i names.
    pub fn waited_at(&self, i: usize) -> usize
        requires { i < most_ops }
        ensures { Word (two self.now (word_at waits_at i)) result }
    {
        words::two_at(self.bytes, WAITS + 2 * i)
    }

    // That operation is j.
    pub fn put_waited(&mut self, i: usize, j: usize)
        requires { i < most_ops }
        ensures { self.new ≡ splice self.old (word_at waits_at i) (low_two j) }
    {
        words::put_two(self.bytes, WAITS + 2 * i, j);
    }
}
