// The tag's record: what goes in with an event and comes back, the ranges that it keeps to, the record of a new tag, and what a call
// answers.
#![tactic(auto)]

ghost use Rattle.std.specs.Prelude.{◌≡◌};
ghost use Rattle.record.specs.Record.{good_number, good_code, tag_in_range, fresh_tag, accepted, refused};

use answer::Refusal;
use bus::{Bus, Held};
use exchange::Exchange;
use mission::Counters;
use select::Select;

#[derive(Clone, Copy)]
pub struct Tag {
    // The configuration code, 40h (L) or 60h (T).
    pub code: u8,
    pub counters: Counters,
    pub exchange: Exchange,
}

// What a call answers: accepted or a refusal, the record, and the line bit. A refusal has the other two as well: "A refusal returns bit 1,
// the record as given" (document 01). So they stand beside the result, and not in its `Ok`.
#[derive(Clone, Copy)]
pub struct Answered {
    pub answer: Result<(), Refusal>,
    pub tag: Tag,
    pub line: bool,
}

// A record with everything clear but the number and the code.
pub fn fresh(number: u64, code: u8) -> Tag
    ensures { result ≡ fresh_tag number code }
{
    Tag {
        code,
        counters: Counters {
            reading: 0,
            minute: 0,
            wait: 0,
        },
        exchange: exchange::new(number),
    }
}

// Whether document 01's refusal 4 lets a registration number pass: family 41h, and a right CRC-8.
#[tactic(auto, unfolding(crate::specs::Record::good_number))]
pub fn good_number(number: u64) -> bool
    ensures { result ≡ good_number number }
{
    number % 256 == 0x41 && crc::good_crc(number)
}

// Whether refusal 5 lets a configuration code pass.
#[tactic(auto, unfolding(crate::specs::Record::good_code))]
pub fn good_code(code: u8) -> bool
    ensures { result ≡ good_code code }
{
    code == 0x40 || code == 0x60
}

// Whether a record keeps to its ranges (docs/RANGES.md).
#[tactic(auto, unfolding(crate::specs::Record::tag_in_range))]
pub fn in_range(tag: Tag) -> bool
    ensures { result ≡ tag_in_range tag }
{
    good_number(tag.exchange.number)
        && good_code(tag.code)
        && mission::in_range(tag.counters)
        && exchange::in_range(tag.exchange)
}

// A refusal: the record as given, and bit 1.
pub fn refuse(answer: Result<(), Refusal>, tag: Tag) -> Answered
    ensures { result ≡ refused answer tag }
{
    Answered {
        answer,
        tag: afresh(tag),
        line: true,
    }
}

// An event or a new tag that is accepted.
pub fn accept(tag: Tag, line: bool) -> Answered
    ensures { result ≡ accepted tag line }
{
    Answered {
        answer: Ok(()),
        tag: afresh(tag),
        line,
    }
}

// The same record, written field by field. A struct that is handed on whole takes the bytes between its fields along: without this a slot of
// `play` counts over twice what it does in plain C, and with `..`, or the fields taken straight from the record, a slot of a list a sixth
// more (bench/README.md).
fn afresh(tag: Tag) -> Tag
    ensures { result ≡ tag }
{
    let counters = afresh_counters(tag.counters);
    let x = tag.exchange;
    let s = x.select;
    let choosing = s.choosing;
    let mode = s.mode;
    let select = Select { choosing, mode };
    let h = x.held;
    let pad = h.pad;
    let held = Held {
        pad,
        ta: h.ta,
        ending: h.ending,
        pf: h.pf,
        aa: h.aa,
    };
    let b = x.bus;
    let stage = b.stage;
    let bus = Bus {
        stage,
        byte: b.byte,
        at: b.at,
        crc: b.crc,
        address: b.address,
        status: b.status,
        field: b.field,
    };
    let exchange = Exchange {
        number: x.number,
        select,
        held,
        bus,
    };
    Tag {
        code: tag.code,
        counters,
        exchange,
    }
}

fn afresh_counters(c: Counters) -> Counters
    ensures { result ≡ c }
{
    Counters {
        reading: c.reading,
        minute: c.minute,
        wait: c.wait,
    }
}
