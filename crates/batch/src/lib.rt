// Many events in one call: a list of words, and beside it a lent byte for each reply. Room, image and record are asked for once;
// after that each word is one event of the tag, without asking again.
#![tactic(auto)]

ghost use Rattle.std.specs.Prelude.{◌≡◌};
ghost use Rattle.batch.specs.Batch.{is_code, is_event, returned, listed};
ghost use Rattle.batch.specs.Batch.Laws.{event_in};

use answer::Refusal;
use record::{Answered, Tag};

// What a list returns: accepted or a refusal, the record, and how many of its words are done. These two stand beside the result, and not in
// its `Ok`: a list that ends with 1 has done the words before it (request #101).
#[derive(Clone, Copy)]
pub struct Batch {
    pub answer: Result<(), Refusal>,
    pub tag: Tag,
    pub done: usize,
}

// A list of events: word 0 a slot with the line held low, 1 a slot with the line released, 2 a reset, 4 a short reset, 4096 plus a
// reading up to 2047 a tick. Each leaves its line bit, 0 or 1, in its reply byte. Refused with 17, 3 or 6, in that order, and nothing
// is done. Any other word ends the list with 1; the words before it are done, and the reply bytes from it on stay as they were.
// A reply goes by its word's place: more of them may be lent than there are words.
#[tactic(auto, unfolding(crate::specs::Batch::listed))]
pub fn events(image: &mut [u8], tag: Tag, words: &[u16], replies: &mut [u8]) -> Batch
    ensures value { result ≡ (listed image.old tag words.now replies.old).batch }
    ensures image_after { image.new ≡ (listed image.old tag words.now replies.old).image }
    ensures replies_after { replies.new ≡ (listed image.old tag words.now replies.old).replies }
{
    if replies.len() < words.len() {
        return left(Err(Refusal::Replies), tag, 0);
    }
    if image.len() != 8832 {
        return left(Err(Refusal::ImageLength), tag, 0);
    }
    if !record::in_range(tag) {
        return left(Err(Refusal::RecordRange), tag, 0);
    }
    let mut now = tag;
    for (i, &word) in words.iter().enumerate() {
        if !is_event(word) {
            return left(Err(Refusal::EventCode), now, i);
        }
        let answered = event(image, now, word);
        replies[i] = bits::digit(answered.line);
        now = answered.tag;
    }
    left(Ok(()), now, words.len())
}

fn left(answer: Result<(), Refusal>, tag: Tag, done: usize) -> Batch
    ensures { result ≡ returned answer tag done }
{
    Batch { answer, tag, done }
}

// Whether a word is an event.
#[tactic(auto, unfolding(crate::specs::Batch::is_event))]
fn is_event(word: u16) -> bool
    ensures { result ≡ is_event word }
{
    is_code(word) || 4096 <= word && word <= 6143
}

// Whether a word is an event by its code alone: a slot or a reset.
#[tactic(auto, unfolding(crate::specs::Batch::is_code))]
fn is_code(word: u16) -> bool
    ensures { result ≡ is_code word }
{
    word <= 2 || word == 4
}

// The event of a word that is one. A word is a number from the radio chip, and its ranges are request #101's: so it is no enum.
#[tactic(auto, unfolding(crate::specs::Batch::Laws::event_in, event::specs::Event::reset_tag, event::specs::Event::short_tag))]
fn event(image: &mut [u8], tag: Tag, word: u16) -> Answered
    ensures value { result ≡ (event_in image.old tag word).answered }
    ensures image_after { image.new ≡ (event_in image.old tag word).image }
{
    match word {
        0 | 1 => event::slot(image, tag, word == 1),
        2 => event::reset(tag),
        4 => event::short_reset(tag),
        _ => event::tick(image, tag, word % 4096),
    }
}
