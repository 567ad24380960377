// The engine's search in a job that an order leads to, made by one receive after another, so that it can be timed: a search does not
// change scratch.
ghost use Rattle.std.specs.Prelude.{◌≡◌, ◌+◌, ◌≤◌};
ghost use Rattle.rules.specs.Sheet.{sheet_in, N_of};
ghost use Rattle.invariant.specs.sheet.Valid.{Valid};
ghost use Rattle.state.specs.declared.Queue.TheVariants.{Messages};
ghost use Rattle.state.specs.Queues.{base_of};
ghost use Rattle.state.specs.Decoded.{words_in};
ghost use Rattle.search.specs.Search.{Readable, Listed};
ghost use Rattle.searches.specs.Jobs.{sum_places, places_in_job};

use orders::follow;
use sheet::Sheet;
use state::{Queue, Scratch};

// The places that n receives from operation i on find among `count` pending messages, added up; one that finds nothing counts with
// their number.
fn places(s: &Sheet, c: &Scratch, count: usize, i: usize, n: usize) -> usize
    requires { Readable s.now c.now × Listed s.now c.now Messages count × (i + n ≤ N_of (sheet_in s.now)) }
    ensures { result ≡ sum_places (sheet_in s.now) (words_in c.now (base_of Messages) count) i n }
{
    let mut total = 0;
    for j in 0..n {
        total += search::find(s, c.bytes(), Queue::Messages, count, i + j).unwrap_or(count);
    }
    total
}

// The order followed, and then the searches of the messages that are pending.
pub fn after(s: &Sheet, order: &[u8], c: &mut Scratch, i: usize, n: usize) -> usize
    requires { Valid (sheet_in s.now) × (i + n ≤ N_of (sheet_in s.now)) }
    ensures { result ≡ places_in_job s.entry.now order.entry.now i n }
{
    let outcome = follow::follow(s, order, c);
    let count = outcome.control.count(Queue::Messages);
    places(s, c, count, i, n)
}
