// An operation that waits, beside what the operation that searches its list asks for (document 01, "How a board steps"; 004). What
// is asked for is read once, before the search. Of a candidate those fields are read that decide, in this order: its board, which
// is another in most; whom it is addressed to, or its tag; its communicator, of which there are few.
ghost use Rattle.std.specs.Prelude.{◌≡◌, ◌<◌};
ghost use Rattle.rules.specs.Sheet.{sheet_in, N_of};
ghost use Rattle.search.specs.Search.{Readable};
ghost use Rattle.search.specs.Candidates.{Asks, sides_fit, message_beside, receive_beside, candidate_fits};

use limits::ANY;
use sheet::Sheet;
use state::{Queue, ranks};

// What an operation asks of those that wait: its own rank, whom it names, its communicator and its tag.
#[derive(Clone, Copy)]
pub struct Asked {
    pub rank: usize,
    pub peer: usize,
    pub communicator: usize,
    pub tag: usize,
}

// What operation i asks for.
pub fn asked_by(s: &Sheet, c: &[u8], i: usize) -> Asked
    requires { Readable s.now c.now × (i < N_of (sheet_in s.now)) }
    ensures { Asks (sheet_in s.now) i result }
{
    Asked {
        rank: ranks::rank_at(c, i),
        peer: s.peer(i),
        communicator: s.comm(i),
        tag: s.tag(i),
    }
}

// Message m fits a receive.
fn message_fits(s: &Sheet, c: &[u8], a: Asked, m: usize) -> bool
    requires { Readable s.now c.now × (m < N_of (sheet_in s.now)) }
    ensures { result ≡ sides_fit (message_beside (sheet_in s.now) a m) }
{
    (a.peer == ANY || a.peer == ranks::rank_at(c, m))
        && s.peer(m) == a.rank
        && (a.tag == ANY || a.tag == s.tag(m))
        && s.comm(m) == a.communicator
}

// Posted receive q fits a send.
fn receive_fits(s: &Sheet, c: &[u8], a: Asked, q: usize) -> bool
    requires { Readable s.now c.now × (q < N_of (sheet_in s.now)) }
    ensures { result ≡ sides_fit (receive_beside (sheet_in s.now) a q) }
{
    a.peer == ranks::rank_at(c, q)
        && waiting::asks_for(s.tag(q), a.tag)
        && waiting::asks_for(s.peer(q), a.rank)
        && a.communicator == s.comm(q)
}

// Operation j of a list fits.
#[tactic(auto, unfolding(crate::specs::Candidates::candidate_fits))]
pub fn candidate_fits(s: &Sheet, c: &[u8], list: Queue, a: Asked, j: usize) -> bool
    requires { Readable s.now c.now × (j < N_of (sheet_in s.now)) }
    ensures { result ≡ candidate_fits list (sheet_in s.now) a j }
{
    match list {
        Queue::Messages => message_fits(s, c, a, j),
        Queue::Receives => receive_fits(s, c, a, j),
    }
}
