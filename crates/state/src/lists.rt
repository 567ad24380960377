// The two waiting lists, two-byte operation numbers. How many there are is kept in the control block.
ghost use Rattle.std.specs.Prelude.{◌≡◌, ◌+◌, ◌≤◌, length};
ghost use Rattle.rules.specs.Sheet.{two};
ghost use Rattle.rules.specs.Step.{splice};
ghost use Rattle.rules.specs.Report.{low_two};
ghost use Rattle.state.specs.Layout.{word_at};
ghost use Rattle.state.specs.Lists.{behind};
ghost use Rattle.words.specs.Read.{Word};
ghost use Rattle.state.specs.Queues.{Based, base_of};

use crate::{MESSAGES, Queue, RECEIVES, Scratch};

impl Queue {
    // Where the list starts.
    #[tactic(auto, unfolding(crate::specs::Queues::base_of), using(crate::specs::Queues::list_based))]
    pub fn base(self) -> usize
        ensures { (result ≡ base_of self) × Based result }
    {
        match self {
            Queue::Messages => MESSAGES,
            Queue::Receives => RECEIVES,
        }
    }
}

// Entry k of the list at base, in the bytes of scratch. These three functions ask for no more of them than they reach.
pub fn word_of(c: &[u8], base: usize, k: usize) -> usize
    requires { word_at base k + 2 ≤ length c.now }
    ensures { Word (two c.now (word_at base k)) result }
{
    words::two_at(c, base + 2 * k)
}

// One more at the end.
pub fn append(c: &mut [u8], base: usize, count: usize, v: usize)
    requires { word_at base count + 2 ≤ length c.old }
    ensures { c.new ≡ splice c.old (word_at base count) (low_two v) }
{
    words::put_two(c, base + 2 * count, v);
}

// Entry k removed: those behind it move down by one. `left` is how many then remain.
pub fn remove(c: &mut [u8], base: usize, left: usize, k: usize)
    requires { (k ≤ left) × (word_at base left + 2 ≤ length c.old) }
    ensures { c.new ≡ splice c.old (word_at base k) (behind c.old base left k) }
{
    words::move_down(c, base + 2 * k, 2, 2 * (left - k));
}

impl Scratch<'_> {
    // Entry k of the list at base.
    pub fn word_of(&self, base: usize, k: usize) -> usize
        requires { word_at base k + 2 ≤ length self.now }
        ensures { Word (two self.now (word_at base k)) result }
    {
        word_of(self.bytes, base, k)
    }

    // One more at the end.
    pub fn append(&mut self, base: usize, count: usize, v: usize)
        requires { word_at base count + 2 ≤ length self.old }
        ensures { self.new ≡ splice self.old (word_at base count) (low_two v) }
    {
        append(self.bytes, base, count, v);
    }

    // Entry k removed: those behind it move down by one. `left` is how many then remain.
    pub fn remove(&mut self, base: usize, left: usize, k: usize)
        requires { (k ≤ left) × (word_at base left + 2 ≤ length self.old) }
        ensures { self.new ≡ splice self.old (word_at base k) (behind self.old base left k) }
    {
        remove(self.bytes, base, left, k);
    }
}
