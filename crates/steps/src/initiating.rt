// Initiating steps (document 01, "How a board steps"): a receive takes the earliest-arrived pending message that fits, a send the
// earliest-posted pending receive; where none fits the receive is pending, and a send goes by its mode.
ghost use Rattle.std.specs.Prelude.{◌≡◌};
ghost use Rattle.rules.specs.Step.{initiating};
ghost use Rattle.simulation.specs.Simulates.{Holds, Simulates};
ghost use Rattle.steps.specs.Pairing.{searched as pairing_searched};
ghost use Rattle.steps.specs.Initiate.{Begins};

use crate::{matching, parts, sends};
use sheet::Sheet;
use state::{Control, Queue, Scratch, State};

// The list that an operation searches: a receive the pending messages, a send the posted receives.
#[tactic(auto, unfolding(crate::specs::Pairing::searched))]
fn searched(receives: bool) -> Queue
    ensures { result ≡ pairing_searched receives }
{
    if receives {
        Queue::Messages
    } else {
        Queue::Receives
    }
}

// Operation i is the next of board r, and its initiating step is before it.
pub fn begin(s: &Sheet, c: &mut Scratch, t: Control, r: usize, i: usize) -> Control
    requires { Holds s.now c.old t (Begins r i) }
    ensures { Simulates s.entry.now c.old t c.new result (Begins r i)
        (λ s x. initiating s r i x) }
{
    let receives = s.is_receive(i);
    let list = searched(receives);
    match search::find(s, c.bytes(), list, t.count(list), i) {
        Some(k) => matching::pair(s, c, t, list, r, i, k),
        None if receives => parts::pend(s, c, t, Queue::Receives, r, i, State::Pending),
        None => sends::leave(s, c, t, r, i),
    }
}
