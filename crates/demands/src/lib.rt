// The demands of the services themselves (document 01, "What is pinned down"): small functions that call the services and
// ensure the demands' conclusions, with no `requires`. Their proofs know of a service only what its contract says, so a
// contract that is weakened fails here.
#![tactic(auto)]

ghost use Rattle.demands.specs.Demands.{seen, CrcCarried, CheckAndFollow, RunKeeps, TwoFollows, FollowAndRun, OneForAll};

use jamturret::{
    jamturret_check, jamturret_crc, jamturret_follow, jamturret_premise, jamturret_run,
};
use sheet::Answer;

// What two calls answered.
#[derive(Clone, Copy)]
pub struct Answers {
    pub first: Answer,
    pub second: Answer,
}

// The CRC put where a sheet has it, in bytes 14 and 15, and CHECK: as whoever lays out a sheet does.
pub fn crc_and_check(sheet: &mut [u8]) -> Answer
    ensures { CrcCarried sheet.old sheet.new result }
{
    if sheet.len() < limits::HEADER_SIZE {
        return jamturret_check(sheet);
    }
    let value = jamturret_crc(sheet);
    words::put_two(sheet, crc::CRC_AT, usize::from(value));
    jamturret_check(sheet)
}

// CHECK a sheet, and FOLLOW it with an order: one call of each.
pub fn check_and_follow(
    sheet: &[u8],
    order: &[u8],
    inbox: &mut [u8],
    report: &mut [u8],
    scratch: &mut [u8],
) -> Answers
    ensures { CheckAndFollow sheet.now order.now result.first
        (seen result.second inbox.old inbox.new report.old report.new) }
{
    let first = jamturret_check(sheet);
    let second = jamturret_follow(sheet, order, inbox, report, scratch);
    Answers { first, second }
}

// RUN a sheet: one call.
pub fn run_once(
    sheet: &[u8],
    inbox: &mut [u8],
    report: &mut [u8],
    order: &mut [u8],
    scratch: &mut [u8],
) -> Answer
    ensures { RunKeeps sheet.now
        (seen result inbox.old inbox.new report.old report.new)
        order.old order.new }
{
    jamturret_run(sheet, inbox, report, order, scratch)
}

// FOLLOW twice, each from and into rooms of its own: one sheet with any two orders, an order and its exchange among them; and one
// order on two sheets, the same sheet in both editions among them.
pub fn follow_two(
    sheet1: &[u8],
    sheet2: &[u8],
    order1: &[u8],
    order2: &[u8],
    inbox1: &mut [u8],
    report1: &mut [u8],
    inbox2: &mut [u8],
    report2: &mut [u8],
    scratch: &mut [u8],
) -> Answers
    ensures { TwoFollows sheet1.now sheet2.now order1.now order2.now
        (seen result.first inbox1.old inbox1.new report1.old report1.new)
        (seen result.second inbox2.old inbox2.new report2.old report2.new) }
{
    let first = jamturret_follow(sheet1, order1, inbox1, report1, scratch);
    let second = jamturret_follow(sheet2, order2, inbox2, report2, scratch);
    Answers { first, second }
}

// FOLLOW a sheet with an order, and RUN it, each from and into rooms of its own; `order2` is room for the order that run takes.
pub fn follow_and_run(
    sheet: &[u8],
    order1: &[u8],
    inbox1: &mut [u8],
    report1: &mut [u8],
    inbox2: &mut [u8],
    report2: &mut [u8],
    order2: &mut [u8],
    scratch: &mut [u8],
) -> Answers
    ensures { FollowAndRun sheet.now order1.now order2.new
        (seen result.first inbox1.old inbox1.new report1.old report1.new)
        (seen result.second inbox2.old inbox2.new report2.old report2.new) }
{
    let first = jamturret_follow(sheet, order1, inbox1, report1, scratch);
    let second = jamturret_run(sheet, inbox2, report2, order2, scratch);
    Answers { first, second }
}

// Ask whether the order can matter for a sheet (PREMISE), and RUN it: with both answers 0 the run's outcome is that of every full
// order.
pub fn premise_and_run(
    sheet: &[u8],
    inbox: &mut [u8],
    report: &mut [u8],
    order: &mut [u8],
    scratch: &mut [u8],
) -> Answers
    ensures { OneForAll sheet.now result.first
        (seen result.second inbox.old inbox.new report.old report.new) }
{
    let first = jamturret_premise(sheet);
    let second = jamturret_run(sheet, inbox, report, order, scratch);
    Answers { first, second }
}
