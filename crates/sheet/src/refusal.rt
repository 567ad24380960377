// A refusal as the code passes it on: which rule is broken, and where. Ok is acceptance, so that rules asked one after the other
// are chained by `?`. A service answers in numbers.
ghost use Rattle.std.specs.Prelude.{◌≡◌, ◌<◌, ◌≤◌, ◌-◌, ℕ, Bool};
ghost use Rattle.rules.specs.Refusal.{first_broken};
ghost use Rattle.sheet.specs.Refused.{number_of, Refuses, Told, KeptOr, Tests};

use crate::Answer;

// The rules that a sheet, a call or an order can break (document 01, "When the desk says no"), and those of the premise.
#[derive(Clone, Copy, PartialEq, Eq)]
pub enum Rule {
    // The sheet is shorter than a header.
    Header,
    Sizes,
    Layout,
    Crc,
    Boards,
    Fields,
    Requests,
    Rooms,
    Order,
    AnySource,
    ReadySend,
    Attached,
    Query,
    StandardRoom,
}

// A broken rule, and the place that is told of it.
#[derive(Clone, Copy, PartialEq, Eq)]
pub struct Refusal {
    pub rule: Rule,
    pub place: usize,
}

impl Rule {
    // The number that a service refuses with.
    fn number(self) -> u32
        ensures { result ≡ number_of self }
    {
        match self {
            Rule::Header => 1,
            Rule::Sizes => 2,
            Rule::Layout => 3,
            Rule::Crc => 4,
            Rule::Boards => 5,
            Rule::Fields => 6,
            Rule::Requests => 7,
            Rule::Rooms => 8,
            Rule::Order => 9,
            Rule::AnySource => 20,
            Rule::ReadySend => 21,
            Rule::Attached => 22,
            Rule::Query => 23,
            Rule::StandardRoom => 24,
        }
    }
}

impl<T: Drop> From<Result<T, Refusal>> for Answer {
    ghost from_gives = { Told };

    fn from(refused: Result<T, Refusal>) -> Answer {
        match refused {
            Ok(_) => Answer {
                number: 0,
                place: 0,
            },
            // A cast, since the library has no From of a usize.
            Err(refusal) => Answer {
                number: refusal.rule.number(),
                place: refusal.place as u64,
            },
        }
    }
}

// The rule is kept, or it is broken at the place.
pub fn ensure(kept: bool, rule: Rule, place: usize) -> Result<(), Refusal>
    ensures { KeptOr kept rule place result }
{
    if kept {
        Ok(())
    } else {
        Err(Refusal { rule, place })
    }
}

// The first index from `from` to before `end` that doesn't keep the rule.
pub fn first_broken<F: Fn(usize) -> bool>(
    from: usize,
    end: usize,
    rule: Rule,
    keeps: F,
) -> Result<(), Refusal>
    requires { (i : ℕ) → from ≤ i → i < end → F.pre keeps i }
    ensures { (f : ℕ → Bool) (left i : ℕ) → left ≡ end - from → i ≡ from → Tests (F.post keeps) from end f
        → Refuses (first_broken (number_of rule) f left i) result }
{
    for i in from..end {
        ensure(keeps(i), rule, i)?;
    }
    Ok(())
}
