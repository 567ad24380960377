// The two parts of an operation, its initiating step and its waiting half (document 01, "How a board steps"): which one is next,
// what ends each, and that an operation waits in a list.
ghost use Rattle.std.specs.Prelude.{◌≡◌, ◌||◌, ◌<◌};
ghost use Rattle.rules.specs.Limits.{most_boards};
ghost use Rattle.rules.specs.Sheet.{sheet_in, op, only_half, N_of};
ghost use Rattle.rules.specs.Step.{initiated, ended};
ghost use Rattle.state.specs.Layout.{seat_at};
ghost use Rattle.state.specs.Decoded.{place_in};
ghost use Rattle.state.specs.Numbers.{state_number};
ghost use Rattle.state.specs.Queues.{pended};
ghost use Rattle.state.specs.Changes.{CanFinish};
ghost use Rattle.simulation.specs.Simulates.{Holds, Simulates};
ghost use Rattle.steps.specs.Parts.{Ends};
ghost use Rattle.steps.specs.Pairing.{Unentered};

use sheet::Sheet;
use state::{Control, Queue, Scratch, State};

// Operation i, the next of board r, is in its waiting half: its initiating step is made, or it has none.
pub fn in_half(s: &Sheet, c: &Scratch, r: usize, i: usize) -> bool
    requires { (i < N_of (sheet_in s.now)) × (r < most_boards) }
    ensures { result ≡ ((place_in c.now (seat_at r)).waiting || only_half (op (sheet_in s.now) i)) }
{
    c.waiting_of(r) || s.is_only_half(i)
}

// After the initiating step of operation i: without a waiting half it is finished, else it is in its waiting half.
pub fn initiate(s: &Sheet, c: &mut Scratch, t: Control, r: usize, i: usize)
    requires { Holds s.now c.old t (CanFinish r) × (i < N_of (sheet_in s.now)) }
    ensures { Simulates s.entry.now c.old t c.new t (CanFinish r)
        (λ s x. initiated s r i x) }
{
    if s.has_no_half(i) {
        c.finish_one(r);
    } else {
        c.start_waiting(r);
    }
}

// Operation i of board r waits in a list, in a state, and its board goes on.
pub fn pend(
    s: &Sheet,
    c: &mut Scratch,
    t: Control,
    list: Queue,
    r: usize,
    i: usize,
    state: State,
) -> Control
    requires { Holds s.now c.old t (Unentered r i) }
    ensures { Simulates s.entry.now c.old t c.new result (Unentered r i)
        (λ s x. initiated s r i (pended list i (state_number state) x)) }
{
    let u = c.pend(t, list, i, state);
    initiate(s, c, u, r, i);
    u
}

// A waiting half ends operation i of board r; the row of one that is only a waiting half then says so.
pub fn end_half(s: &Sheet, c: &mut Scratch, t: Control, r: usize, i: usize)
    requires { Holds s.now c.old t (Ends r i) }
    ensures { Simulates s.entry.now c.old t c.new t (Ends r i)
        (λ s x. ended s r i x) }
{
    if s.is_only_half(i) {
        telling::put_half_row(s, c, t, i);
    }
    c.finish_one(r);
}
