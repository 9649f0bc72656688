// The parts of a record, each out of the 80 bytes that it is packed into, by the offsets of include/bagtag.h. Every function answers a
// slice of any length: what lies past its end reads as 0. Functions, not `From`: the structs are other crates' (orphan-impl). An offset
// stands beside `lent` and in no struct with it, as in `image`, which reads both: a struct would be taken apart at each call.
ghost use Rattle.std.specs.Prelude.{◌≡◌, ◌+◌};
ghost use Rattle.image.specs.Fields.{word_at};
ghost use Rattle.packing.specs.Packing.{counters_in, exchange_in, select_in, codes_at, held_in, bytes_from, bus_in};

use crate::Coded;
use crate::codes::{self, Numbered};
use bus::{Bus, Held, Stage};
use exchange::Exchange;
use mission::Counters;
use select::{Choosing, Mode, Select};
use std::array;

#[tactic(auto, unfolding(crate::specs::Packing::counters_in))]
pub(crate) fn counters(lent: &[u8]) -> Counters
    ensures { result ≡ counters_in lent.now }
{
    Counters {
        reading: word16(lent, 16),
        minute: image::peek(lent, 2),
        wait: image::word(lent, 32, 8),
    }
}

#[tactic(auto, unfolding(crate::specs::Packing::exchange_in))]
pub(crate) fn exchange(lent: &[u8]) -> Exchange
    ensures { result ≡ exchange_in lent.now }
{
    let select = select(lent);
    let held = held(lent);
    let bus = bus(lent);
    Exchange {
        number: image::word(lent, 24, 8),
        select,
        held,
        bus,
    }
}

#[tactic(auto, unfolding(crate::specs::Packing::select_in, crate::specs::Packing::choosing_in))]
fn select(lent: &[u8]) -> Select
    ensures { result ≡ select_in lent.now }
{
    let choosing = Choosing::from_number(coded_at(lent, 4));
    let mode = Mode::from_number(image::peek(lent, 3));
    Select { choosing, mode }
}

// The three numbers of an enum, from a place on.
pub(crate) fn coded_at(lent: &[u8], at: u8) -> Coded
    ensures { result ≡ codes_at lent.now at (at + 1) (at + 2) }
{
    let at = usize::from(at);
    codes::coded(
        image::peek(lent, at),
        image::peek(lent, at + 1),
        image::peek(lent, at + 2),
    )
}

#[tactic(auto, unfolding(crate::specs::Packing::held_in))]
fn held(lent: &[u8]) -> Held
    ensures { result ≡ held_in lent.now }
{
    let pad = pad(lent);
    Held {
        pad,
        ta: word16(lent, 18),
        ending: image::peek(lent, 13),
        pf: bool::from_number(image::peek(lent, 14)),
        aa: bool::from_number(image::peek(lent, 15)),
    }
}

fn pad(lent: &[u8]) -> [u8; 32]
    ensures { result ≡ bytes_from lent.now 48 32 }
{
    array::from_fn(|i| image::peek(lent, 48 + i))
}

#[tactic(auto, unfolding(crate::specs::Packing::bus_in, crate::specs::Packing::stage_in))]
fn bus(lent: &[u8]) -> Bus
    ensures { result ≡ bus_in lent.now }
{
    let stage = Stage::from_number(coded_at(lent, 7));
    Bus {
        stage,
        byte: image::peek(lent, 10),
        at: image::peek(lent, 11),
        crc: word16(lent, 20),
        address: word16(lent, 22),
        status: image::peek(lent, 12),
        field: image::word(lent, 40, 8),
    }
}

fn word16(lent: &[u8], at: usize) -> u16
    ensures { result ≡ word_at lent.now at 2 }
{
    image::word(lent, at, 2) as u16
}
