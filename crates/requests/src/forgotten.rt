// Refusal 7's last test: forgotten requests (document 02, K7). A script is walked from its end to its front, so that what is
// known at an operation is which slots are freed behind it: one pass, linear in the number of operations.
ghost use Rattle.std.specs.Prelude.{◌<◌};
ghost use Rattle.rules.specs.Sheet.{sheet_in, P_of};
ghost use Rattle.rules.specs.Refusal.{slot_freed};
ghost use Rattle.sheet.specs.Refused.{Refuses};
ghost use Rattle.laws.specs.Tabled.{Tabled};
ghost use Rattle.laws.specs.Fields.{Fielded};
ghost use Rattle.laws.specs.Scripts.{script_broken};

use sheet::Sheet;
use sheet::refusal::{Refusal, Rule};

// The first operation of board r's script that takes a slot which nothing behind it frees. The table is written only where a
// slot is freed: with a store in each turn, each would wait for the one before.
pub fn script_refusal(s: &Sheet, r: usize) -> Result<(), Refusal>
    requires { Tabled (sheet_in s.now) × Fielded (sheet_in s.now) × (r < P_of (sheet_in s.now)) }
    ensures { Refuses (script_broken 7 (slot_freed (sheet_in s.now)) (sheet_in s.now) r) result }
{
    s.known();
    let first = s.first(r);
    let mut freed = [false; limits::SLOT_LIMIT];
    let mut found = Ok(());
    for i in (first..first + s.count(r)).rev() {
        let slot = s.slot(i);
        if s.frees_slot(i) {
            freed[slot] = true;
        } else if s.takes_slot(i) & !freed[slot] {
            found = Err(Refusal {
                rule: Rule::Requests,
                place: i,
            });
        }
    }
    found
}
