// The premise of demand 3: whether the order of steps can matter for a sheet (document 01, "What is pinned down"). Refusals 1 to 7,
// then numbers 20 to 24, lowest first, each over the whole sheet.
#![tactic(auto, unfolding(rules::specs::Premise::premise_refusal, rules::specs::Premise::calm_refusal, rules::specs::Premise::any_source_refusal, rules::specs::Premise::ready_refusal, rules::specs::Premise::cover_refusal, rules::specs::Premise::query_refusal, rules::specs::Premise::rooms_refusal, rules::specs::Premise::source_good, rules::specs::Premise::mode_good, rules::specs::Premise::cover_good, account::specs::Stores::stands_for, rules::specs::Premise::query_good, rules::specs::Refusal::or_else, rules::specs::Refusal::refusal, rules::specs::Service::Answers))]

ghost use Rattle.rules.specs.Sheet.{sheet_in};
ghost use Rattle.rules.specs.Premise.{calm_refusal, premise_refusal};
ghost use Rattle.laws.specs.Tabled.{Tabled};
ghost use Rattle.sheet.specs.Refused.{Refuses};

mod cover;

use account::Store;
use cover::{is_covering, is_none_or_covering};
use refusals::check;
use sheet::Sheet;
use sheet::refusal::{Refusal, Rule, first_broken};

// Whether a sheet that passes check is calm: 20 no receive or probe is from any source; 21 no send is ready; 22 attached buffers cover
// the sends that are kept there; 23 nothing is queried (document 02, K9); 24 so do standard rooms, or they are 0 and nothing is kept.
fn calm(s: &Sheet) -> Result<(), Refusal>
    requires { Tabled (sheet_in s.now) }
    ensures { Refuses (calm_refusal (sheet_in s.now)) result }
{
    let n = s.ops();
    let p = s.boards();
    first_broken(0, n, Rule::AnySource, |i| !s.is_any_source(i))?;
    first_broken(0, n, Rule::ReadySend, |i| !s.is_ready(i))?;
    first_broken(0, p, Rule::Attached, |r| is_covering(s, Store::Attached, r))?;
    first_broken(0, n, Rule::Query, |i| !s.tells_completion(i))?;
    first_broken(0, p, Rule::StandardRoom, |r| is_none_or_covering(s, r))
}

// Any bytes at all are answered.
pub fn premise(sheet: &[u8]) -> Result<(), Refusal>
    ensures { Refuses (premise_refusal sheet.now) result }
{
    let sheet = check::check(sheet)?;
    calm(&sheet)
}
