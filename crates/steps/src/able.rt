// Whether a board is able: the job isn't stopped, the board is unfinished, and what comes next is an initiating step or a
// waiting half that can end (document 01, "How a board steps").
ghost use Rattle.std.specs.Prelude.{◌≡◌, List, ℕ};
ghost use Rattle.rules.specs.Sheet.{sheet_in};
ghost use Rattle.rules.specs.Job.{Job};
ghost use Rattle.rules.specs.Step.{able};
ghost use Rattle.simulation.specs.Represents.{Represents, Represented};
ghost use Rattle.steps.specs.Able.{Next, RepresentedNext, can_go_on};

use crate::parts;
use sheet::Sheet;
use state::{Control, Scratch};

// Operation i is the next of board r: an initiating step, or a waiting half that can end.
fn next_is_able(s: &Sheet, c: &Scratch, t: Control, r: usize, i: usize) -> bool
    requires { RepresentedNext s.now c.now t r i }
    ensures { (lent : List ℕ) (x : Job) → Represents s.now lent c.now t x →
        Next (sheet_in s.now) x r i → result ≡ can_go_on (sheet_in s.now) x r i }
{
    if !parts::in_half(s, c, r, i) {
        return true;
    }
    if s.tells(i) {
        return telling::can_end(s, c, t, i);
    }
    if s.frees_slot(i) {
        return c.is_complete(c.waited_at(i));
    }
    c.is_complete(i)
}

// Board r is able.
pub fn is_able(s: &Sheet, c: &Scratch, t: Control, r: usize) -> bool
    requires { Represented s.now c.now t }
    ensures { (lent : List ℕ) (x : Job) → Represents s.now lent c.now t x →
        result ≡ able (sheet_in s.now) x r }
{
    if t.stop.is_some() || s.boards() <= r {
        return false;
    }
    let done = c.finished_of(r);
    if s.count(r) <= done {
        return false;
    }
    let i = s.first(r) + done;
    next_is_able(s, c, t, r, i)
}
