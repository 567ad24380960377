// The lowest rank that is able: run's next step, and for a report whether any board is able.
ghost use Rattle.rules.specs.Sheet.{sheet_in};
ghost use Rattle.simulation.specs.Represents.{Represented};
ghost use Rattle.orders.specs.Jobs.{Every};
ghost use Rattle.orders.specs.Lowest.{Lowest};

use sheet::Sheet;
use state::{Control, Scratch};
use steps::able;

// That rank, if any board is able. A closure for `find` would want a contract of its own: what `is_able` says is of every job that
// stands in scratch, which is not inferred.
pub fn lowest(s: &Sheet, c: &Scratch, t: Control) -> Option<usize>
    requires { Represented s.now c.now t }
    ensures { Every s.now c.now t (λ x. Lowest (sheet_in s.now) x result) }
{
    for r in 0..s.boards() {
        if able::is_able(s, c, t, r) {
            return Some(r);
        }
    }
    None
}
