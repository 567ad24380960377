// Places of boards: operations finished, whether the board is in a waiting half, and the figures of its two stores.
ghost use Rattle.std.specs.Prelude.{◌≡◌, ◌<◌, ◌≤◌, length};
ghost use Rattle.rules.specs.Limits.{most_boards, scratch_size};
ghost use Rattle.rules.specs.Job.{account, with_account};
ghost use Rattle.rules.specs.Step.{splice};
ghost use Rattle.account.specs.Accounts.{account as account_with};
ghost use Rattle.account.specs.Stores.{stands_for};
ghost use Rattle.state.specs.Layout.{seat_at};
ghost use Rattle.state.specs.Decoded.{figures_at, place_in, place_row, figures_of, place_of, FiguresRead, PlaceRead};
ghost use Rattle.words.specs.Read.{Word};

use crate::{BoardPlace, PLACES, SEAT_SIZE, Scratch, StoreFigures};
use account::{Account, Store};

impl Scratch<'_> {
    // How many operations board r has finished.
    pub fn finished_of(&self, r: usize) -> usize
        requires { r < most_boards }
        ensures { Word (place_in self.now (seat_at r)).finished result }
    {
        words::two_at(self.bytes, PLACES + SEAT_SIZE * r)
    }

    // Whether its next operation is in its waiting half.
    pub fn waiting_of(&self, r: usize) -> bool
        requires { r < most_boards }
        ensures { result ≡ (place_in self.now (seat_at r)).waiting }
    {
        words::byte_at(self.bytes, PLACES + SEAT_SIZE * r + 6) == 1
    }

    // The figures of a store of board r.
    pub fn figures_of(&self, r: usize, w: Store) -> StoreFigures
        requires { r < most_boards }
        ensures { FiguresRead (account (stands_for w) (place_in self.now (seat_at r))) result }
    {
        figures_in(self.bytes, r, w)
    }

    // The whole place of board r, read.
    pub fn place_of(&self, r: usize) -> BoardPlace
        requires { r < most_boards }
        ensures { PlaceRead (place_in self.now (seat_at r)) result }
    {
        place_of(self.bytes, r)
    }

    // The whole place of board r, put.
    pub fn put_place(&mut self, r: usize, q: BoardPlace)
        requires { r < most_boards }
        ensures { self.new ≡ splice self.old (seat_at r) (place_row (place_of q)) }
    {
        put_seat(self.bytes, r, q);
    }
}

// Where a store's figures stand in a place.
#[tactic(auto, unfolding(crate::specs::Decoded::figures_at, account::specs::Stores::stands_for))]
fn figures_at(w: Store) -> usize
    ensures { (result ≡ figures_at (stands_for w)) × (result ≤ 8) }
{
    match w {
        Store::Attached => 2,
        Store::Room => 8,
    }
}

// The figures of a store of board r, in the bytes of scratch.
fn figures_in(c: &[u8], r: usize, w: Store) -> StoreFigures
    requires { (r < most_boards) × (scratch_size ≤ length c.now) }
    ensures { FiguresRead (account (stands_for w) (place_in c.now (seat_at r))) result }
{
    let at = PLACES + SEAT_SIZE * r + figures_at(w);
    let in_use = words::two_at(c, at);
    let peak = words::two_at(c, at + 2);
    StoreFigures { in_use, peak }
}

// The whole place of board r, read from the bytes of scratch, which need be lent for reading alone.
pub fn place_of(c: &[u8], r: usize) -> BoardPlace
    requires { (r < most_boards) × (scratch_size ≤ length c.now) }
    ensures { PlaceRead (place_in c.now (seat_at r)) result }
{
    let finished = words::two_at(c, PLACES + SEAT_SIZE * r);
    let waiting = words::byte_at(c, PLACES + SEAT_SIZE * r + 6) == 1;
    let attached = figures_in(c, r, Store::Attached);
    let room = figures_in(c, r, Store::Room);
    BoardPlace {
        finished,
        waiting,
        attached,
        room,
    }
}

// The whole place of board r, put into the bytes of scratch.
fn put_seat(c: &mut [u8], r: usize, q: BoardPlace)
    requires { (r < most_boards) × (scratch_size ≤ length c.old) }
    ensures { c.new ≡ splice c.old (seat_at r) (place_row (place_of q)) }
{
    let at = PLACES + SEAT_SIZE * r;
    words::put_pair(c, at, q.finished, q.attached.in_use);
    words::put_pair(c, at + 4, q.attached.peak, usize::from(q.waiting));
    words::put_pair(c, at + 8, q.room.in_use, q.room.peak);
}

impl StoreFigures {
    // The account with these figures, of a store of the size.
    pub fn account(self, size: usize) -> Account
        ensures { result ≡ account_with size self.in_use self.peak }
    {
        Account {
            size,
            in_use: self.in_use,
            peak: self.peak,
        }
    }
}

impl BoardPlace {
    // The figures of a store.
    #[tactic(auto, unfolding(rules::specs::Job::account, rules::specs::Job::place, account::specs::Stores::stands_for))]
    pub fn figures(self, w: Store) -> StoreFigures
        ensures { figures_of result ≡ account (stands_for w) (place_of self) }
    {
        match w {
            Store::Attached => self.attached,
            Store::Room => self.room,
        }
    }

    // The place with other figures of a store.
    #[tactic(auto, unfolding(rules::specs::Job::with_account, rules::specs::Job::place, account::specs::Stores::stands_for))]
    pub fn with_figures(self, w: Store, f: StoreFigures) -> BoardPlace
        ensures { place_of result ≡ with_account (stands_for w) (figures_of f) (place_of self) }
    {
        match w {
            Store::Attached => BoardPlace {
                attached: f,
                ..self
            },
            Store::Room => BoardPlace { room: f, ..self },
        }
    }
}
