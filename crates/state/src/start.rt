// The start of a job: nothing entered, no buffer in use, whatever scratch held before.
ghost use Rattle.std.specs.Prelude.{◌≡◌, ◌≤◌};
ghost use Rattle.rules.specs.Limits.{most_ops, most_boards};
ghost use Rattle.rules.specs.Step.{splice};
ghost use Rattle.state.specs.Start.{bare_rows, started_bytes};

use crate::{PLACES, SEAT_SIZE, Scratch, State};

impl Scratch<'_> {
    // The first n rows: not entered, with neither partner nor status.
    fn put_rows(&mut self, n: usize)
        requires { n ≤ most_ops }
        ensures { self.new ≡ splice self.old 0 (bare_rows n) }
    {
        self.known();
        for i in 0..n {
            self.put_bare(i, State::NotEntered);
        }
    }

    // n rows and p places. The waiting lists are empty, so nothing is written there.
    pub fn init(&mut self, p: usize, n: usize)
        requires { (n ≤ most_ops) × (p ≤ most_boards) }
        ensures { self.new ≡ started_bytes self.old p n }
    {
        self.put_rows(n);
        words::fill(self.bytes, PLACES, SEAT_SIZE * p, 0);
    }
}
