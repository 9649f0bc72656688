// The tag as seen from the line: a record that goes in and comes back, with a lent image of 8,832 bytes. A new tag, and one
// event at a time. Whatever comes in, a call answers by document 01's numbers, and a refusal changes nothing.
#![tactic(auto)]

ghost use Rattle.std.specs.Prelude.{◌≡◌, length};
ghost use Rattle.tag.specs.Tag.{new_image, new_tag, step};

use answer::Refusal;
use record::{Answered, Tag};

// A new tag with this registration number, low byte first. It clears the lent image whatever it held, and waits for a reset.
// Refused with 3, 4 or 5, in that order; the record is then that of all zeros.
#[tactic(auto, unfolding(crate::specs::Tag::new_tag))]
pub fn new(image: &mut [u8], number: u64, code: u8) -> Answered
    ensures value { result ≡ (new_tag image.old number code).answered }
    ensures image_after { image.new ≡ (new_tag image.old number code).image }
{
    if image.len() != 8832 {
        return record::refuse(Err(Refusal::ImageLength), record::fresh(0, 0));
    }
    if !record::good_number(number) {
        return record::refuse(Err(Refusal::RomNumber), record::fresh(0, 0));
    }
    if !record::good_code(code) {
        return record::refuse(Err(Refusal::Configuration), record::fresh(0, 0));
    }
    clear_image(image);
    record::accept(record::fresh(number, code), true)
}

// One event: 0 a slot with the line held low, 1 a slot with the line released, 2 a reset, 3 a tick of one second with its
// reading, 4 a short reset. Refused with 3, 6, 1 or 2, in that order.
#[tactic(auto, unfolding(crate::specs::Tag::step, crate::specs::Tag::event_of, event::specs::Event::reset_tag, event::specs::Event::short_tag))]
pub fn event(image: &mut [u8], tag: Tag, code: u8, reading: u16) -> Answered
    ensures value { result ≡ (step image.old tag code reading).answered }
    ensures image_after { image.new ≡ (step image.old tag code reading).image }
{
    if image.len() != 8832 {
        return record::refuse(Err(Refusal::ImageLength), tag);
    }
    if !record::in_range(tag) {
        return record::refuse(Err(Refusal::RecordRange), tag);
    }
    // The code is document 01's number of the event, and any byte may come: it is no enum.
    match code {
        0 | 1 => event::slot(image, tag, code == 1),
        2 => event::reset(tag),
        3 if reading > 2047 => record::refuse(Err(Refusal::Reading), tag),
        3 => event::tick(image, tag, reading),
        4 => event::short_reset(tag),
        _ => record::refuse(Err(Refusal::EventCode), tag),
    }
}

// The image of a new tag: all zeros but BOR.
#[tactic(auto, unfolding(crate::specs::Tag::new_image))]
fn clear_image(image: &mut [u8])
    ensures { image.new ≡ new_image (length image.old) }
{
    image.fill(0);
    image::poke(image, 0x0214, 0x80);
}
