// Numbers 22 and 24: whether a board's store covers the charges of all sends that are kept there, were none matched. One walk for
// the attached buffer and for the standard room (document 02, K6).
#![tactic(auto, unfolding(rules::specs::Claims::covers, rules::specs::Claims::none_or_covers, rules::specs::Premise::room_good, account::specs::Stores::stands_for))]

ghost use Rattle.std.specs.Prelude.{◌≡◌, cond, ◌<◌};
ghost use Rattle.rules.specs.Sheet.{sheet_in, op, board, P_of, N_of};
ghost use Rattle.rules.specs.Step.{kept_in, charge_of};
ghost use Rattle.rules.specs.Claims.{all_charges, script, covers};
ghost use Rattle.laws.specs.Tabled.{Tabled};
ghost use Rattle.account.specs.Stores.{stands_for};
ghost use Rattle.rules.specs.Premise.{room_good};
ghost use Rattle.words.specs.Read.{WordSum};

use account::Store;
use sheet::Sheet;

// What operation i would be charged there: nothing, where it is not kept there.
fn charge(s: &Sheet, w: Store, i: usize) -> usize
    requires { i < N_of (sheet_in s.now) }
    ensures { WordSum (cond (kept_in (stands_for w) (op (sheet_in s.now) i))
        (charge_of (stands_for w) (op (sheet_in s.now) i)) 0) result }
{
    if s.keeps(w, i) { s.charge(w, i) } else { 0 }
}

// The charges of all sends of board r that are kept there.
fn charges(s: &Sheet, w: Store, r: usize) -> usize
    requires { Tabled (sheet_in s.now) × (r < P_of (sheet_in s.now)) }
    ensures { result ≡ all_charges (stands_for w) (script (board (sheet_in s.now) r) (sheet_in s.now).ops) }
{
    let first = s.first(r);
    let mut sum = 0;
    for i in first..first + s.count(r) {
        sum += charge(s, w, i);
    }
    sum
}

// Board r's store covers them.
pub fn is_covering(s: &Sheet, w: Store, r: usize) -> bool
    requires { Tabled (sheet_in s.now) × (r < P_of (sheet_in s.now)) }
    ensures { result ≡ covers (stands_for w) (sheet_in s.now).ops (board (sheet_in s.now) r) }
{
    charges(s, w, r) <= s.size(w, r)
}

// Board r's standard room covers them, or it is 0 and nothing is kept there.
pub fn is_none_or_covering(s: &Sheet, r: usize) -> bool
    requires { Tabled (sheet_in s.now) × (r < P_of (sheet_in s.now)) }
    ensures { result ≡ room_good (sheet_in s.now) r }
{
    s.room(r) == 0 || is_covering(s, Store::Room, r)
}
