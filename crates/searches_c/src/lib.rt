// The searches of `searches` for C: each export calls the function of its name there, and states the same answer. A slice passes as a
// pointer and a length.
#![tactic(auto)]

ghost use Rattle.std.specs.Prelude.{◌≡◌, length, unwrap_or};
ghost use Rattle.waiting.specs.Envelopes.{earliest_fit};
ghost use Rattle.searches.specs.Places.{place_in_slices};
ghost use Rattle.searches.specs.Jobs.{searched_places};

use waiting::Envelope;

// The search through plain slices: sources, communicators and tags of the messages that wait. Slices that differ in length are no
// list of messages: nothing is found in them, and the answer is the number of sources. Shut out, among others: one that tells
// nothing found as the first place, and one that reads behind the end of a shorter slice.
#[unsafe(no_mangle)]
pub extern "C" fn searches_in_slices(
    sources: &[usize],
    communicators: &[usize],
    tags: &[usize],
    source: usize,
    communicator: usize,
    tag: usize,
) -> usize
    ensures { result ≡ place_in_slices sources.now communicators.now tags.now
        source communicator tag }
{
    searches::searches_in_slices(sources, communicators, tags, source, communicator, tag)
}

// The search through a list of envelopes. Shut out, among others: one that tells nothing found as the first place, and one that
// finds a message of another communicator.
#[unsafe(no_mangle)]
pub extern "C" fn searches_in_envelopes(
    list: &[Envelope],
    source: usize,
    communicator: usize,
    tag: usize,
) -> usize
    ensures { result ≡ unwrap_or (earliest_fit list.now source communicator tag) (length list.now) }
{
    searches::searches_in_envelopes(list, source, communicator, tag)
}

// The engine's search: n receives from operation i on, one after another, search the messages that are pending after an order, and
// take none. The answer is the sum of the places of what they find, where one that finds nothing counts with the number of those
// that wait; 0 where check refuses the sheet, scratch is shorter than follow asks for, or there are no such operations. An order
// that is refused counts up to there. What is left in scratch is not said. Shut out, among others: one that searches as many
// messages as receives are posted, and one whose receives take what they find.
#[unsafe(no_mangle)]
pub extern "C" fn searches_in_job(
    sheet: &[u8],
    order: &[u8],
    scratch: &mut [u8],
    i: usize,
    n: usize,
) -> usize
    ensures { result ≡ searched_places sheet.now order.now (length scratch.old) i n }
{
    searches::searches_in_job(sheet, order, scratch, i, n)
}
