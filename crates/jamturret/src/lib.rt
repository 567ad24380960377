// The public services, exported to C and Rust. A slice passes as a pointer and a length. Each service states its whole outcome
// for every input, with no `requires`.
#![tactic(auto, unfolding(rules::specs::Service::CheckSays, rules::specs::Premise::PremiseSays))]

ghost use Rattle.std.specs.Prelude.{◌≡◌};
ghost use Rattle.rules.specs.Crc.{crc};
ghost use Rattle.rules.specs.Service.{CheckSays, FollowSays, RunSays};
ghost use Rattle.rules.specs.Premise.{PremiseSays};

mod jobs;
mod rooms;

use premise::premise;
use refusals::check;
use sheet::Answer;

// CRC that a sheet of these bytes has to carry, for whoever lays one out: over bytes 0 to 13 and then 16 to the end, of short
// sheets over what there is of them. Shut out, among others: one that counts the header's own CRC, and one that leaves out what
// stands behind the header.
#[unsafe(no_mangle)]
pub extern "C" fn jamturret_crc(sheet: &[u8]) -> u16
    ensures { result ≡ crc sheet.now }
{
    crc::crc_of_any(sheet)
}

// CHECK a sheet: refusals 1 to 7, or number 0 and place 0. Shut out, among others: a check that refuses everything, and one
// that accepts everything.
#[unsafe(no_mangle)]
pub extern "C" fn jamturret_check(sheet: &[u8]) -> Answer
    ensures { CheckSays sheet.now result.number result.place }
{
    check::check(sheet).into()
}

// PREMISE of demand 3: whether the order of steps can matter for a sheet. Refusals 1 to 7; 20 an any-source receive or probe, 21 a
// ready send, 22 a board whose attached buffer does not cover all its buffered sends, 23 a query, 24 a board whose standard room is
// above 0 and does not cover all its standard sends; else number 0 and place 0, and any two full orders end alike. Shut out, among
// others: one that answers 0 for every sheet that passes check, and one that takes a buffer or a room for enough that covers each
// send alone and not all of them together.
#[unsafe(no_mangle)]
pub extern "C" fn jamturret_premise(sheet: &[u8]) -> Answer
    ensures { PremiseSays sheet.now result.number result.place }
{
    premise(sheet).into()
}

// FOLLOW a sheet with a given order of ranks: refusals 1 to 9; on success inbox and report hold the outcome. Scratch is all zero
// after success or 9. Shut out, among others: one that delivers before the order is known good, and one that leaves scratch as
// its work left it.
#[unsafe(no_mangle)]
pub extern "C" fn jamturret_follow(
    sheet: &[u8],
    order: &[u8],
    inbox: &mut [u8],
    report: &mut [u8],
    scratch: &mut [u8],
) -> Answer
    ensures { FollowSays sheet.now order.now result.number result.place
        inbox.old inbox.new report.old report.new
        scratch.old scratch.new }
{
    jobs::follow(sheet, order, inbox, report, scratch).into()
}

// RUN a sheet, choosing at each step the lowest rank that is able, and write down that order: refusals 1 to 8. Shut out, among
// others: one that writes behind the last step of the order, and one that takes the highest rank.
#[unsafe(no_mangle)]
pub extern "C" fn jamturret_run(
    sheet: &[u8],
    inbox: &mut [u8],
    report: &mut [u8],
    order: &mut [u8],
    scratch: &mut [u8],
) -> Answer
    ensures { RunSays sheet.now result.number result.place
        inbox.old inbox.new report.old report.new
        order.old order.new scratch.old scratch.new }
{
    jobs::run(sheet, inbox, report, order, scratch).into()
}
