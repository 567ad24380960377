// What a sheet says of a board's two stores (document 02, K6): their sizes, which sends are kept in them, and what they are
// charged there. One function each for both, by the store.
#![tactic(auto, unfolding(rules::specs::Step::store_of, rules::specs::Step::kept_in, rules::specs::Step::size_of, rules::specs::Step::charge_of, account::specs::Stores::stands_for))]

ghost use Rattle.std.specs.Prelude.{◌≡◌, ◌+◌, ◌<◌};
ghost use Rattle.rules.specs.Sheet.{Op, sheet_in, op, board, P_of, N_of};
ghost use Rattle.rules.specs.Step.{store_of, kept_in, size_of, charge_of};
ghost use Rattle.account.specs.Stores.{stands_for};
ghost use Rattle.words.specs.Read.{Word, WordSum};

use crate::Sheet;
use account::Store;

// What a message costs there beside its bytes: in the attached buffer the overhead (document 02, K2), in the room nothing.
fn overhead(w: Store) -> usize
    ensures { ((o : Op) → charge_of (stands_for w) o ≡ o.long + result) × (result < 65536) }
{
    match w {
        Store::Attached => limits::BSEND_OVERHEAD,
        Store::Room => 0,
    }
}

impl Sheet<'_> {
    // Where send i is kept once it is complete and not matched: a buffered one in the attached buffer, a standard one in the room.
    pub fn store_of(&self, i: usize) -> Store
        requires { i < N_of (sheet_in self.now) }
        ensures { stands_for result ≡ store_of (op (sheet_in self.now) i) }
    {
        if self.is_buffered(i) {
            Store::Attached
        } else {
            Store::Room
        }
    }

    // Operation i is a send that may be kept there.
    pub fn keeps(&self, w: Store, i: usize) -> bool
        requires { i < N_of (sheet_in self.now) }
        ensures { result ≡ kept_in (stands_for w) (op (sheet_in self.now) i) }
    {
        match w {
            Store::Attached => self.is_buffered(i),
            Store::Room => self.is_standard(i),
        }
    }

    // What operation i is charged there.
    pub fn charge(&self, w: Store, i: usize) -> usize
        requires { i < N_of (sheet_in self.now) }
        ensures { WordSum (charge_of (stands_for w) (op (sheet_in self.now) i)) result }
    {
        self.long(i) + overhead(w)
    }

    // The store's size on board r.
    pub fn size(&self, w: Store, r: usize) -> usize
        requires { r < P_of (sheet_in self.now) }
        ensures { Word (size_of (stands_for w) (board (sheet_in self.now) r)) result }
    {
        match w {
            Store::Attached => self.attached(r),
            Store::Room => self.room(r),
        }
    }
}
