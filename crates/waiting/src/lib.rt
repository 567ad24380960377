// The waiting list of one receiver (document 01, "How a board steps"): the envelopes of the messages that wait for it, in order
// of arrival, searched for the earliest that fits what a receive asks for. Of a message a search reads no more than decides.
// `search` goes through plain slices, `earliest` through a lent list of envelopes; `earliest_of` lends a list of its own, for
// callers that have envelopes in an array.
#![tactic(auto)]

ghost use Rattle.std.specs.Prelude.{◌≡◌, ◌<◌, length, get_or, take};
ghost use Rattle.waiting.specs.Envelopes.{is_asked, envelope_fits, fits_receive, earliest_fit, listed};

use limits::{ANY, MOST_OPS};

// A message that waits: its source, communicator and tag, and the send that it is of.
#[repr(C)]
#[derive(Clone, Copy)]
pub struct Envelope {
    pub source: usize,
    pub communicator: usize,
    pub tag: usize,
    pub operation: usize,
}

impl Envelope {
    // Fit (004) of a message that is addressed to the receiver: communicators equal; source equal or any; tag equal or any. Of its
    // envelope those fields are read that decide: most messages are another sender's or have another tag, few are of another
    // communicator.
    #[tactic(auto, unfolding(crate::specs::Envelopes::envelope_fits))]
    fn fits(&self, source: usize, communicator: usize, tag: usize) -> bool
        ensures { result ≡ fits_receive self.now source communicator tag }
    {
        asks_for(source, self.source)
            && asks_for(tag, self.tag)
            && self.communicator == communicator
    }
}

// A receive asks for a source or a tag, or for any.
pub fn asks_for(asked: usize, told: usize) -> bool
    ensures { result ≡ is_asked asked told }
{
    asked == ANY || asked == told
}

// The same fit of the message at place i of three slices.
#[tactic(auto, unfolding(crate::specs::Envelopes::envelope_fits))]
fn fits_at(
    sources: &[usize],
    communicators: &[usize],
    tags: &[usize],
    i: usize,
    source: usize,
    communicator: usize,
    tag: usize,
) -> bool
    requires { (i < length sources.now) × (i < length communicators.now) × (i < length tags.now) }
    ensures { result ≡ envelope_fits (get_or sources.now i 0) (get_or communicators.now i 0) (get_or tags.now i 0)
        source communicator tag }
{
    (source == ANY || source == sources[i])
        && (tag == ANY || tag == tags[i])
        && communicators[i] == communicator
}

// The place, counted from 0, of the earliest of the messages whose sources, communicators and tags stand in three slices.
pub fn search(
    sources: &[usize],
    communicators: &[usize],
    tags: &[usize],
    source: usize,
    communicator: usize,
    tag: usize,
) -> Option<usize>
    requires { (length communicators.now ≡ length sources.now) × (length tags.now ≡ length sources.now) }
    ensures { result ≡ earliest_fit (listed sources.now communicators.now tags.now) source communicator tag }
{
    for i in 0..sources.len() {
        if fits_at(sources, communicators, tags, i, source, communicator, tag) {
            return Some(i);
        }
    }
    None
}

// The place of the earliest of a lent list of envelopes.
#[tactic(auto, unfolding(crate::specs::Envelopes::earliest_fit))]
pub fn earliest(list: &[Envelope], source: usize, communicator: usize, tag: usize) -> Option<usize>
    ensures { result ≡ earliest_fit list.now source communicator tag }
{
    list.iter().position(|e| e.fits(source, communicator, tag))
}

// The earliest of the first `count` envelopes of an array; of all, where the count exceeds their number.
pub fn earliest_of(
    list: [Envelope; MOST_OPS],
    count: usize,
    source: usize,
    communicator: usize,
    tag: usize,
) -> Option<usize>
    ensures { result ≡ earliest_fit (take count list) source communicator tag }
{
    earliest(&list[..count.min(MOST_OPS)], source, communicator, tag)
}
