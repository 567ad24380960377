// The body of check: refusals 1 to 7, lowest number first, each over the whole sheet (document 01, "When the desk says no").
#![tactic(auto, unfolding(rules::specs::Refusal::sheet_refusal, rules::specs::Refusal::tables_refusal, rules::specs::Refusal::ops_refusal, rules::specs::Refusal::requests_refusal, rules::specs::Refusal::or_else, rules::specs::Refusal::refusal, rules::specs::Service::Answers))]

ghost use Rattle.std.specs.Prelude.{◌≡◌, IfOk};
ghost use Rattle.rules.specs.Sheet.{sheet_in};
ghost use Rattle.rules.specs.Refusal.{requests_refusal, tables_refusal, sheet_refusal};
ghost use Rattle.laws.specs.Tabled.{Tabled};
ghost use Rattle.laws.specs.Fields.{Fielded};
ghost use Rattle.sheet.specs.Refused.{Refuses};

use crate::{boards, header, scripts};
use sheet::Sheet;
use sheet::refusal::{Refusal, Rule, ensure};

// Refusal 7: the rules of slots and areas over the whole sheet, and behind them forgotten requests (document 02, K7). What is settled
// on the way (Tabled, then Fielded) is a clause and no type of sheets: each type would want the readers of Sheet once more.
fn requests(s: &Sheet) -> Result<(), Refusal>
    requires { Tabled (sheet_in s.now) × Fielded (sheet_in s.now) }
    ensures { Refuses (requests_refusal (sheet_in s.now)) result }
{
    scripts::refusal(s, |r| requests::script_refusal(s, r))?;
    scripts::refusal(s, |r| requests::forgotten::script_refusal(s, r))
}

// Refusals 5 to 7 of a sheet whose tables are in place.
fn tables(s: &Sheet) -> Result<(), Refusal>
    ensures { Refuses (tables_refusal (sheet_in s.now)) result }
{
    boards::refusal(s)?;
    scripts::refusal(s, |r| fields::script_refusal(s, r))?;
    requests(s)
}

// Any bytes at all are answered: as the sheet that they are, or why they are none.
pub fn check(s: &[u8]) -> Result<Sheet<'_>, Refusal>
    ensures refuses { Refuses (sheet_refusal s.now) result }
    ensures sheet { IfOk result (λ sheet. sheet ≡ s.now) }
{
    ensure(limits::HEADER_SIZE <= s.len(), Rule::Header, 0)?;
    ensure(header::sizes_are_good(s), Rule::Sizes, 0)?;
    ensure(header::layout_is_good(s), Rule::Layout, 0)?;
    ensure(header::crc_is_good(s), Rule::Crc, 0)?;
    let sheet = Sheet::new(s);
    tables(&sheet)?;
    Ok(sheet)
}
