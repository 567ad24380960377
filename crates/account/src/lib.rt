// The account of one of a board's two stores, its attached buffer (document 01, "How a board steps"; MPI buffered mode) or its
// standard room (document 02, K6): its size, the bytes in use and the most that were in use. The rules stand in two methods of an
// account by value, `take` and `give_back`. `charge` and `release` take the account by `&mut` and change it where it stands.
#![tactic(auto)]

ghost use Rattle.std.specs.Prelude.{◌≡◌};
ghost use Rattle.account.specs.Accounts.{has_room, taken, taken_or_none, given_back};

// Whose account it is: of the attached buffer, or of the standard room. What each stands for in rules: specs/Stores.
#[derive(Clone, Copy)]
pub enum Store {
    Attached,
    Room,
}

// The size of a board's store, and of its place the bytes in use there and the peak (document 01, "The report").
#[derive(Clone, Copy)]
pub struct Account {
    pub size: usize,
    pub in_use: usize,
    pub peak: usize,
}

impl Account {
    // There is room for n bytes: in use plus n is at most the size.
    pub fn has_room(self, n: usize) -> bool
        ensures { result ≡ has_room self n }
    {
        n <= self.size && self.in_use <= self.size - n
    }

    // The account with a charge of n bytes, where there is room.
    pub fn take(self, n: usize) -> Option<Account>
        ensures { result ≡ taken_or_none self n }
    {
        if !self.has_room(n) {
            return None;
        }
        let in_use = self.in_use + n;
        let peak = self.peak.max(in_use);
        Some(Account {
            in_use,
            peak,
            ..self
        })
    }

    // A buffered message is matched: its charge of n bytes goes, the peak stays.
    pub fn give_back(self, n: usize) -> Account
        ensures { result ≡ given_back self n }
    {
        let in_use = self.in_use.saturating_sub(n);
        Account { in_use, ..self }
    }

    // The account is charged n bytes where it stands, if it has room; the answer says whether.
    pub fn charge(&mut self, n: usize) -> bool
        ensures { (self.new ≡ taken self.old n) × (result ≡ has_room self.old n) }
    {
        let Some(after) = self.take(n) else {
            return false;
        };
        *self = after;
        true
    }

    // A charge of n bytes goes from the account where it stands.
    pub fn release(&mut self, n: usize)
        ensures { self.new ≡ given_back self.old n }
    {
        *self = self.give_back(n);
    }
}
