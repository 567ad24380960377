// Following a given order: the first index whose rank isn't able, or the whole order.
ghost use Rattle.rules.specs.Sheet.{sheet_in};
ghost use Rattle.invariant.specs.sheet.Valid.{Valid};
ghost use Rattle.orders.specs.Follows.{Follows};

use sheet::Sheet;
use state::{Control, Scratch};
use steps::{able, turn};

// The index at which an order was refused, if it was, and the control block of the job that scratch then holds: that of the
// steps before it, also of a refused one.
#[derive(Clone, Copy)]
pub struct Outcome {
    pub refused_at: Option<usize>,
    pub control: Control,
}

// The order followed from the start of a job, in scratch alone. Valid is a clause and no type of sheets: steps and report ask only
// Represented, so that each sheet would be taken out of the type again before its first step.
pub fn follow(s: &Sheet, order: &[u8], c: &mut Scratch) -> Outcome
    requires { Valid (sheet_in s.now) }
    ensures { Follows s.now order.now c.new result }
{
    let mut control = setup::start(s, c);
    for (k, &rank) in order.iter().enumerate() {
        let r = usize::from(rank);
        if !able::is_able(s, c, control, r) {
            return Outcome {
                refused_at: Some(k),
                control,
            };
        }
        control = turn::take(s, c, control, r);
    }
    Outcome {
        refused_at: None,
        control,
    }
}
