// Refusals 6 and 7: each is a rule that every operation has to keep, and the first operation that breaks it is the place. The
// search goes board by board, since a rule is tested along a script.
ghost use Rattle.std.specs.Prelude.{◌≢◌, ◌<◌, ℕ, Bool};
ghost use Rattle.rules.specs.Sheet.{sheet_in, P_of};
ghost use Rattle.laws.specs.Tabled.{Tabled};
ghost use Rattle.laws.specs.Scripts.{all_broken};
ghost use Rattle.sheet.specs.Refused.{Refuses};
ghost use Rattle.refusals.specs.Scripts.{InScripts};

use sheet::Sheet;
use sheet::refusal::Refusal;

// Where the sheet first breaks a rule; `in_script` says where the script of a board does.
pub fn refusal<F: Fn(usize) -> Result<(), Refusal>>(s: &Sheet, in_script: F) -> Result<(), Refusal>
    requires { Tabled (sheet_in s.now) × ((r : ℕ) → r < P_of (sheet_in s.now) → F.pre in_script r) }
    ensures { (n : ℕ) (f : ℕ → Bool) → n ≢ 0 → InScripts (F.post in_script) n f (sheet_in s.now)
        → Refuses (all_broken n f (sheet_in s.now)) result }
{
    for r in 0..s.boards() {
        in_script(r)?;
    }
    Ok(())
}
