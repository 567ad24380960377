// Operation rows, in the report's format (document 01, "The report"): state, cut, partner, source, tag, length.
ghost use Rattle.std.specs.Prelude.{◌≡◌, ◌∷◌, ◌+◌, ◌<◌, ◌≤◌, cond, eqb, leb, length};
ghost use Rattle.rules.specs.Limits.{most_ops, scratch_size, absent};
ghost use Rattle.rules.specs.Job.{entry, bare_entry};
ghost use Rattle.rules.specs.Step.{splice};
ghost use Rattle.rules.specs.Report.{op_row, low_two, entry_in};
ghost use Rattle.state.specs.Layout.{row_at};
ghost use Rattle.state.specs.Numbers.{state_number};
ghost use Rattle.words.specs.Read.{Word, Byte};

use crate::{Scratch, State};
use limits::ABSENT;

impl From<State> for u8 {
    ghost from_gives = { λ state n. n ≡ state_number state };

    fn from(state: State) -> u8 {
        // The number of a case can be read by a cast alone.
        state as u8
    }
}

impl Scratch<'_> {
    // The state of operation i.
    pub fn state_of(&self, i: usize) -> usize
        requires { i < most_ops }
        ensures { Byte (entry_in self.now (row_at i)).state result }
    {
        words::byte_at(self.bytes, limits::OP_ROW_SIZE * i)
    }

    // Whether operation i is in a state.
    pub fn is_in(&self, i: usize, state: State) -> bool
        requires { i < most_ops }
        ensures { result ≡ eqb (entry_in self.now (row_at i)).state (state_number state) }
    {
        self.state_of(i) == usize::from(u8::from(state))
    }

    // Whether it is complete: from buffered on.
    pub fn is_complete(&self, i: usize) -> bool
        requires { i < most_ops }
        ensures { result ≡ leb 2 (entry_in self.now (row_at i)).state }
    {
        usize::from(u8::from(State::Buffered)) <= self.state_of(i)
    }

    // Whether its message was cut, 1 or 0.
    pub fn cut_of(&self, i: usize) -> usize
        requires { i < most_ops }
        ensures { Byte (entry_in self.now (row_at i)).cut result }
    {
        words::byte_at(self.bytes, limits::OP_ROW_SIZE * i + 1)
    }

    // The operation that it was matched with.
    pub fn partner_of(&self, i: usize) -> usize
        requires { i < most_ops }
        ensures { Word (entry_in self.now (row_at i)).partner result }
    {
        words::two_at(self.bytes, limits::OP_ROW_SIZE * i + 2)
    }

    // A row with neither partner nor status.
    pub fn put_bare(&mut self, i: usize, state: State)
        requires { i < most_ops }
        ensures { self.new ≡ splice self.old (row_at i) (op_row (bare_entry (state_number state))) }
    {
        put_bare(self.bytes, i, u8::from(state));
    }

    // The row of message m, matched with receive r.
    pub fn put_sent(&mut self, m: usize, r: usize)
        requires { m < most_ops }
        ensures { self.new ≡ splice self.old (row_at m) (op_row (entry 3 0 r absent absent 0)) }
    {
        put_row(
            self.bytes,
            m,
            u8::from(State::Matched),
            0,
            r,
            ABSENT,
            ABSENT,
            0,
        );
    }

    // The row of receive r, matched with message m, with its status.
    pub fn put_received(
        &mut self,
        r: usize,
        cut: bool,
        m: usize,
        source: usize,
        tag: usize,
        long: usize,
    )
        requires { r < most_ops }
        ensures { self.new ≡ splice self.old (row_at r) (op_row (entry 3 (cond cut 1 0) m source tag long)) }
    {
        put_received(self.bytes, r, u8::from(cut), m, source, tag, long);
    }

    // The row of operation i, finished, with what it tells (document 02, K9).
    pub fn put_told(&mut self, i: usize, source: usize, tag: usize, long: usize)
        requires { i < most_ops }
        ensures { self.new ≡ splice self.old (row_at i) (op_row (entry 5 0 absent source tag long)) }
    {
        put_row(
            self.bytes,
            i,
            u8::from(State::Finished),
            0,
            ABSENT,
            source,
            tag,
            long,
        );
    }
}

// State and cut, a byte each, and the partner: the first four bytes of a row.
fn put_front(c: &mut [u8], at: usize, state: u8, cut: u8, partner: usize)
    requires { at + 4 ≤ length c.old }
    ensures { c.new ≡ splice c.old at (state ∷ cut ∷ low_two partner) }
{
    words::put_byte(c, at, state);
    words::put_byte(c, at + 1, cut);
    words::put_two(c, at + 2, partner);
}

// The whole row of operation i; its last two bytes are zero. Partner, source and tag are ABSENT where there is none, as in the
// report: an Option of each would say no more.
fn put_row(
    c: &mut [u8],
    i: usize,
    state: u8,
    cut: u8,
    partner: usize,
    source: usize,
    tag: usize,
    long: usize,
)
    requires { (i < most_ops) × (scratch_size ≤ length c.old) }
    ensures { c.new ≡ splice c.old (row_at i) (op_row (entry state cut partner source tag long)) }
{
    let at = limits::OP_ROW_SIZE * i;
    put_front(c, at, state, cut, partner);
    words::put_pair(c, at + 4, source, tag);
    words::put_pair(c, at + 8, long, 0);
}

// A row with neither partner nor status, in the bytes of scratch. This function and the next put any byte as a state or a cut: what a
// job's states are, their callers say.
#[tactic(auto, unfolding(rules::specs::Job::bare_entry))]
pub fn put_bare(c: &mut [u8], i: usize, v: u8)
    requires { (i < most_ops) × (scratch_size ≤ length c.old) }
    ensures { c.new ≡ splice c.old (row_at i) (op_row (bare_entry v)) }
{
    put_row(c, i, v, 0, ABSENT, ABSENT, ABSENT, 0);
}

// The row of receive r, matched with message m, with its status.
pub fn put_received(
    c: &mut [u8],
    r: usize,
    cut: u8,
    m: usize,
    source: usize,
    tag: usize,
    long: usize,
)
    requires { (r < most_ops) × (scratch_size ≤ length c.old) }
    ensures { c.new ≡ splice c.old (row_at r) (op_row (entry 3 cut m source tag long)) }
{
    put_row(c, r, u8::from(State::Matched), cut, m, source, tag, long);
}
