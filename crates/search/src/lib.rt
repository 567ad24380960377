// The search of a waiting list for the earliest that fits (document 01, "How a board steps"; 004).
#![tactic(auto)]

ghost use Rattle.std.specs.Prelude.{◌<◌};
ghost use Rattle.rules.specs.Sheet.{sheet_in, N_of, two};
ghost use Rattle.state.specs.Layout.{word_at};
ghost use Rattle.state.specs.Queues.{base_of};
ghost use Rattle.search.specs.Search.{Readable, Listed, First, pair_fits};

use sheet::Sheet;
use state::{Queue, lists};

mod candidates;

// Where the first of `count` operations of a waiting list stands that operation i fits. A search only reads scratch, so it is lent
// its bytes, which `Readable` says are enough.
pub fn find(s: &Sheet, c: &[u8], list: Queue, count: usize, i: usize) -> Option<usize>
    requires { Readable s.now c.now × Listed s.now c.now list count × (i < N_of (sheet_in s.now)) }
    ensures { First (λ j. pair_fits list (sheet_in s.now) i (two c.now (word_at (base_of list) j)))
        count result }
{
    let asked = candidates::asked_by(s, c, i);
    let base = list.base();
    (0..count).find(|k| candidates::candidate_fits(s, c, list, asked, lists::word_of(c, base, *k)))
}
