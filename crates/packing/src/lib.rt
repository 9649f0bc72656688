// The tag's record as bytes: 80 of them at fixed offsets, low byte first, which a caller that knows no enum keeps and lends. The table of
// offsets stands in include/bagtag.h, the definition in specs/Packing.antt. Every function answers a slice of any length.
#![tactic(auto)]

ghost use Rattle.std.specs.Prelude.{◌≡◌};
ghost use Rattle.std.proofs.lemmas.List.Edits.{sets};
ghost use Rattle.bits.specs.Bytes.{Bytes};
ghost use Rattle.packing.specs.Packing.{bytes_of, singles, words_of, packed, AllFit, Fits, is_packed, unpacked};

use bus::Stage;
use codes::Numbered;
use record::Tag;
use select::{Choosing, Mode};

mod codes;
mod parts;
mod stages;

// How many bytes a record has.
pub const RECORD: usize = 80;

// The first byte of every record. Another layout gets another number.
const VERSION: u8 = 1;

// A case of an enum by its number, and two numbers for what it holds.
#[derive(Clone, Copy, PartialEq, Eq)]
pub struct Coded {
    pub case: u8,
    pub first: u8,
    pub second: u8,
}

// ---- packing

// Packs a record into the first bytes lent; bytes past the 80 stay, and what a shorter slice has no room for is left out.
pub fn pack(lent: &mut [u8], tag: Tag)
    ensures lent_after { lent.new ≡ sets lent.old 0 (packed tag) }
    ensures fits { Fits tag }
{
    let pad = tag.exchange.held.pad;
    put(lent, 0, &single_bytes(tag));
    put_words(lent, tag);
    put(lent, 48, &pad);
}

// The fields of one byte.
#[tactic(auto, unfolding(crate::specs::Packing::singles))]
fn single_bytes(tag: Tag) -> [u8; 16]
    ensures { result ≡ singles tag }
{
    let select = tag.exchange.select;
    let held = tag.exchange.held;
    let bus = tag.exchange.bus;
    let chosen = select.choosing.number();
    let staged = bus.stage.number();
    [
        VERSION,
        tag.code,
        tag.counters.minute,
        select.mode.number(),
        chosen.case,
        chosen.first,
        chosen.second,
        staged.case,
        staged.first,
        staged.second,
        bus.byte,
        bus.at,
        bus.status,
        held.ending,
        held.pf.number(),
        held.aa.number(),
    ]
}

// Those of two bytes and of eight. Each has a name first, as the scratchpad has: what its type says of it is known by that.
#[tactic(auto, unfolding(crate::specs::Packing::AllFit, crate::specs::Packing::words_of, crate::specs::Packing::pairs, crate::specs::Packing::eights))]
fn put_words(lent: &mut [u8], tag: Tag)
    ensures lent_after { lent.new ≡ sets lent.old 16 (bytes_of (words_of tag)) }
    ensures all_fit { AllFit (words_of tag) }
{
    let reading = tag.counters.reading;
    let ta = tag.exchange.held.ta;
    let crc = tag.exchange.bus.crc;
    let address = tag.exchange.bus.address;
    let number = tag.exchange.number;
    let wait = tag.counters.wait;
    let field = tag.exchange.bus.field;
    put(lent, 16, &reading.to_le_bytes());
    put(lent, 18, &ta.to_le_bytes());
    put(lent, 20, &crc.to_le_bytes());
    put(lent, 22, &address.to_le_bytes());
    put(lent, 24, &number.to_le_bytes());
    put(lent, 32, &wait.to_le_bytes());
    put(lent, 40, &field.to_le_bytes());
}

// Stores bytes from a place on; past the end, nothing. Beside `image::put_bytes` it says what the type does, which `Fits` rests on.
pub fn put(lent: &mut [u8], at: usize, bytes: &[u8])
    ensures lent_after { lent.new ≡ sets lent.old at bytes.now }
    ensures bytes { Bytes bytes.now }
{
    image::put_bytes(lent, at, bytes);
}

// ---- unpacking

// Whether these bytes are what some record packs to.
#[tactic(auto, using(crate::specs::Codes::Laws::flag_own), unfolding(crate::specs::Packing::is_packed, crate::specs::Packing::choosing_in, crate::specs::Packing::stage_in, crate::specs::Codes::is_mode, crate::specs::Codes::is_choosing, crate::specs::Codes::is_stage, crate::specs::Codes::same_codes))]
pub fn is_packed(lent: &[u8]) -> bool
    ensures { result ≡ is_packed lent.now }
{
    lent.len() == RECORD
        && image::peek(lent, 0) == VERSION
        && codes::is_own::<Mode>(image::peek(lent, 3))
        && codes::is_own::<Choosing>(parts::coded_at(lent, 4))
        && codes::is_own::<Stage>(parts::coded_at(lent, 7))
        && codes::is_own::<bool>(image::peek(lent, 14))
        && codes::is_own::<bool>(image::peek(lent, 15))
}

// The record that these bytes stand for; of another number of bytes than 80, that of all zeros. What no record packs to stands for some
// record too: `is_packed` tells them apart.
#[tactic(auto, unfolding(crate::specs::Packing::unpacked))]
pub fn unpack(lent: &[u8]) -> Tag
    ensures { result ≡ unpacked lent.now }
{
    if lent.len() != RECORD {
        return record::fresh(0, 0);
    }
    let counters = parts::counters(lent);
    let exchange = parts::exchange(lent);
    Tag {
        code: image::peek(lent, 1),
        counters,
        exchange,
    }
}
