// What each event does to a tag, once its record and image are found right: a slot, a reset, a short one, a tick. One account of it,
// for whoever asks first: `tag::event` at every event, `batch::events` once a list.
#![tactic(auto)]

ghost use Rattle.std.specs.Prelude.{◌≡◌};
ghost use Rattle.event.specs.Event.{answer_to, performed, performed_counters, slotted, present, shortened, tick_tag};

use bus::{Deed, Question};
use exchange::{Exchange, Slotted};
use mission::Counters;
use record::{Answered, Tag};

// A slot: the exchange asks, the image answers, the exchange moves on, and its deed is done to the image.
#[tactic(auto, unfolding(crate::specs::Event::slotted))]
pub fn slot(image: &mut [u8], tag: Tag, bit: bool) -> Answered
    ensures value { result ≡ (slotted image.old tag bit).answered }
    ensures image_after { image.new ≡ (slotted image.old tag bit).image }
{
    let question = exchange::ask(tag.exchange, bit);
    let told = answer_to(image, tag.code, question);
    let Slotted {
        exchange,
        line,
        deed,
    } = exchange::slot(tag.exchange, bit, told);
    let counters = perform(image, deed, exchange, tag.counters);
    record::accept(
        Tag {
            counters,
            exchange,
            ..tag
        },
        line,
    )
}

// A reset: the presence is bit 0.
pub fn reset(tag: Tag) -> Answered
    ensures { result ≡ present tag }
{
    let exchange = exchange::reset(tag.exchange);
    record::accept(Tag { exchange, ..tag }, false)
}

// A short reset: the presence at overdrive, bit 1 at standard speed.
pub fn short_reset(tag: Tag) -> Answered
    ensures { result ≡ shortened tag }
{
    let fast = select::overdrive(tag.exchange.select);
    let exchange = exchange::short_reset(tag.exchange);
    record::accept(Tag { exchange, ..tag }, !fast)
}

// A tick of one second with its reading: bit 1.
#[tactic(auto, unfolding(crate::specs::Event::tick_tag))]
pub fn tick(image: &mut [u8], tag: Tag, reading: u16) -> Answered
    ensures value { result ≡ (tick_tag image.old tag reading).answered }
    ensures image_after { image.new ≡ (tick_tag image.old tag reading).image }
{
    let counters = mission::tick(image, tag.counters, reading);
    record::accept(Tag { counters, ..tag }, true)
}

// What the image answers.
#[tactic(auto, unfolding(crate::specs::Event::answer_to))]
fn answer_to(image: &[u8], code: u8, question: Question) -> u8
    ensures { result ≡ answer_to image.now code question }
{
    match question {
        Question::Nothing => 0,
        Question::Alarm => bits::digit(image::alarm(image)),
        Question::MayRead(field) => bits::digit(image::may_read(image, field)),
        Question::MayCopy(field, address) => bits::digit(image::may_copy(image, field, address)),
        Question::MayControl(field) => bits::digit(image::may_control(image, field)),
        Question::Byte(address) => image::sent(image, code, address),
    }
}

// Does the deed; what it leaves of the counters is returned.
#[tactic(auto, unfolding(crate::specs::Event::performed, crate::specs::Event::performed_counters))]
fn perform(image: &mut [u8], deed: Deed, x: Exchange, counters: Counters) -> Counters
    ensures value { result ≡ performed_counters deed counters image.old }
    ensures image_after { image.new ≡ performed deed x counters image.old }
{
    match deed {
        Deed::Nothing => counters,
        Deed::Store => {
            image::store_page(image, x.held.pad, x.held.ta);
            counters
        }
        Deed::Clear => {
            mission::clear(image);
            counters
        }
        Deed::Start => mission::start(image, counters),
        Deed::Stop => {
            mission::stop(image);
            counters
        }
        Deed::Convert => {
            mission::convert(image, counters);
            counters
        }
    }
}
