// The changes that steps are made of (document 01, "How a board steps"). Contracts are in the words of rules: what is left in
// scratch holds the job that the definition makes of the job that scratch held.
ghost use Rattle.std.specs.Prelude.{◌≡◌, ℕ, ◌<◌, ◌≤◌};
ghost use Rattle.rules.specs.Limits.{most_ops, most_boards, absent};
ghost use Rattle.rules.specs.Sheet.{N_of, P_of};
ghost use Rattle.rules.specs.Job.{entry, place_at, with_account};
ghost use Rattle.rules.specs.Step.{splice, without, with_place, with_row, with_state, matched_rows, one_finished, now_waiting};
ghost use Rattle.account.specs.Stores.{stands_for};
ghost use Rattle.account.specs.Accounts.{figures_of as account_figures};
ghost use Rattle.state.specs.Layout.{seat_at};
ghost use Rattle.state.specs.Numbers.{state_number};
ghost use Rattle.state.specs.Decoded.{place_row, place_of};
ghost use Rattle.state.specs.Lists.{FirstAt};
ghost use Rattle.state.specs.Queues.{count_of, list_of, with_list, pended};
ghost use Rattle.state.specs.Changes.{Becomes, Changes, CanFinish, released_in, Charges, Tellable, Status};

use crate::{BoardPlace, Control, Queue, Scratch, State, StoreFigures};
use account::{Account, Store};

impl Scratch<'_> {
    // Operation i gets a state and neither partner nor status.
    pub fn set_state(&mut self, i: usize, state: State)
        requires { i < most_ops }
        ensures { Changes self.old self.new (λ s x. i < N_of s) (λ s x. with_state i (state_number state) x) }
    {
        self.put_bare(i, state);
    }

    // Operation i is finished, and its row tells a source, a tag and a length (document 02, K9).
    pub fn set_told(&mut self, i: usize, source: usize, tag: usize, long: usize)
        requires { i < most_ops }
        ensures { Changes self.old self.new (λ s x. Tellable s i source tag long)
            (λ s x. with_row i (entry 5 0 absent source tag long) x) }
    {
        self.put_told(i, source, tag, long);
    }

    // Operation i becomes pending in a state: its row, and behind the others in its list.
    pub fn pend(&mut self, t: Control, q: Queue, i: usize, state: State) -> Control
        requires { (i < most_ops) × (count_of q t < most_ops) }
        ensures { Becomes self.old t self.new result (λ s x. i < N_of s) (λ s x. pended q i (state_number state) x) }
    {
        let n = t.count(q);
        let base = q.base();
        self.put_bare(i, state);
        self.known();
        self.append(base, n, i);
        t.recounting(q, n + 1)
    }

    // Both rows of a match of message m and receive r.
    pub fn match_rows(
        &mut self,
        m: usize,
        r: usize,
        cut: bool,
        source: usize,
        tag: usize,
        long: usize,
    )
        requires { (m < most_ops) × (r < most_ops) }
        ensures { Changes self.old self.new (λ s x. Status s m r cut source tag long) (λ s x. matched_rows s m r x) }
    {
        self.put_sent(m, r);
        self.put_received(r, cut, m, source, tag, long);
    }

    // The k-th of a waiting list leaves it: the first v in it.
    pub fn take(&mut self, t: Control, q: Queue, k: usize) -> Control
        requires { (k < count_of q t) × (count_of q t ≤ most_ops) }
        ensures { (v : ℕ) → Becomes self.old t self.new result
            (λ s x. FirstAt (list_of q x) k v) (λ s x. with_list q (without v (list_of q x)) x) }
    {
        self.known();
        let left = t.count(q) - 1;
        self.remove(q.base(), left, k);
        t.recounting(q, left)
    }

    // The place q of board r with a store's account a.
    #[tactic(auto, unfolding(account::specs::Accounts::figures_of))]
    fn put_account(&mut self, r: usize, q: BoardPlace, w: Store, a: Account)
        requires { r < most_boards }
        ensures { self.new ≡ splice self.old (seat_at r)
            (place_row (with_account (stands_for w) (account_figures a) (place_of q))) }
    {
        let figures = StoreFigures {
            in_use: a.in_use,
            peak: a.peak,
        };
        self.put_place(r, q.with_figures(w, figures));
    }

    // A store of board r, of the size, is charged n bytes where it has room, and says whether. Its account is lent and changed where
    // it stands; a place has the figures in two bytes each.
    pub fn charge(&mut self, r: usize, w: Store, size: usize, n: usize) -> bool
        requires { (r < most_boards) × (size < 65536) }
        ensures { Charges (stands_for w) self.old self.new r size n result }
    {
        let q = self.place_of(r);
        let figures = q.figures(w);
        let mut account = figures.account(size);
        if !account.charge(n) {
            return false;
        }
        self.put_account(r, q, w, account);
        true
    }

    // A charge of n bytes to a store goes: its account is lent as in `charge`.
    pub fn release(&mut self, r: usize, w: Store, size: usize, n: usize)
        requires { r < most_boards }
        ensures { Changes self.old self.new (λ s x. r < P_of s)
            (λ s x. with_place r (released_in (stands_for w) n (place_at x r)) x) }
    {
        let q = self.place_of(r);
        let mut account = q.figures(w).account(size);
        account.release(n);
        self.put_account(r, q, w, account);
    }

    // Board r has finished one operation more.
    pub fn finish_one(&mut self, r: usize)
        requires { r < most_boards }
        ensures { Changes self.old self.new (CanFinish r)
            (λ s x. with_place r (one_finished (place_at x r)) x) }
    {
        let q = self.place_of(r);
        let next = BoardPlace {
            finished: q.finished + 1,
            waiting: false,
            ..q
        };
        self.put_place(r, next);
    }

    // Board r's next operation is in its waiting half.
    pub fn start_waiting(&mut self, r: usize)
        requires { r < most_boards }
        ensures { Changes self.old self.new (λ s x. r < P_of s)
            (λ s x. with_place r (now_waiting (place_at x r)) x) }
    {
        let q = self.place_of(r);
        let next = BoardPlace { waiting: true, ..q };
        self.put_place(r, next);
    }
}
