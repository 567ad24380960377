// A match of a message and a receive (document 01, "How a board steps"): its charge goes, both rows say so, the one that waited
// leaves its list, and the operation that met it is initiated.
ghost use Rattle.std.specs.Prelude.{◌≡◌, ◌<◌};
ghost use Rattle.rules.specs.Sheet.{N_of, two};
ghost use Rattle.rules.specs.Step.{initiated, release, matched_rows};
ghost use Rattle.state.specs.Layout.{word_at};
ghost use Rattle.state.specs.Queues.{base_of, count_of};
ghost use Rattle.simulation.specs.Simulates.{Holds, Simulates};
ghost use Rattle.steps.specs.Pairing.{Both, message_of, receive_of, matched_with, Pairs};

use crate::parts;
use sheet::Sheet;
use state::{Control, Queue, Scratch, State};

// A buffered message's charge goes when it is matched, from the store that it is kept in.
fn release_charge(s: &Sheet, c: &mut Scratch, t: Control, m: usize)
    requires { Holds s.now c.old t (λ s x. m < N_of s) }
    ensures { Simulates s.entry.now c.old t c.new t (λ s x. m < N_of s)
        (λ s x. release s m x) }
{
    if c.is_in(m, State::Buffered) {
        let sender = c.rank_at(m);
        let w = s.store_of(m);
        c.release(sender, w, s.size(w, sender), s.charge(w, m));
    }
}

// Both rows of a match of message m and receive q: the receive's tells source, tag and length, and whether it is cut.
fn put_rows(s: &Sheet, c: &mut Scratch, t: Control, m: usize, q: usize)
    requires { Holds s.now c.old t (Both m q) }
    ensures { Simulates s.entry.now c.old t c.new t (Both m q)
        (λ s x. matched_rows s m q x) }
{
    let tag = s.tag(m);
    let long = s.long(m);
    let cut = s.long(q) < long;
    let source = c.rank_at(m);
    c.match_rows(m, q, cut, source, tag, long);
}

// The rows of a match, with the charge that goes.
fn match_rows(s: &Sheet, c: &mut Scratch, t: Control, m: usize, q: usize)
    requires { Holds s.now c.old t (Both m q) }
    ensures { Simulates s.entry.now c.old t c.new t (Both m q)
        (λ s x. matched_rows s m q (release s m x)) }
{
    release_charge(s, c, t, m);
    put_rows(s, c, t, m, q);
}

// Of operation i and the operation j that it found in a list: the message, and the receive.
#[tactic(auto, unfolding(crate::specs::Pairing::message_of, crate::specs::Pairing::receive_of))]
fn sides(list: Queue, i: usize, j: usize) -> (usize, usize)
    ensures { (result.0 ≡ message_of list i j) × (result.1 ≡ receive_of list i j) }
{
    match list {
        Queue::Messages => (j, i),
        Queue::Receives => (i, j),
    }
}

// Operation i of board r is matched with the k-th of a waiting list.
pub fn pair(
    s: &Sheet,
    c: &mut Scratch,
    t: Control,
    list: Queue,
    r: usize,
    i: usize,
    k: usize,
) -> Control
    requires { Holds s.now c.old t (Pairs list r i k) × (k < count_of list t) }
    ensures { Simulates s.entry.now c.old t c.new result (Pairs list r i k)
        (λ s x. initiated s r i (matched_with list s i (two c.old (word_at (base_of list) k)) x)) }
{
    let j = c.word_of(list.base(), k);
    let (m, q) = sides(list, i, j);
    match_rows(s, c, t, m, q);
    let u = c.take(t, list, k);
    parts::initiate(s, c, u, r, i);
    u
}
