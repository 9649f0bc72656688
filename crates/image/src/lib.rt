// The lent image of 8,832 bytes: user memory 512, registers 64, calibration 64, log 8,192. Every function answers a slice
// of any length: what lies past its end reads as 0, and a store there changes nothing.
#![tactic(auto)]

ghost use Rattle.std.specs.Prelude.{◌≡◌, min, get_or, set};
ghost use Rattle.std.proofs.lemmas.List.Edits.{sets};
ghost use Rattle.image.specs.Answers.{alarmed, may_read, may_control, may_copy};
ghost use Rattle.image.specs.Fields.{word_at, put_word, flag_at, put_flag};
ghost use Rattle.image.specs.Map.{region_at};
ghost use Rattle.image.specs.Sent.{sent_at};
ghost use Rattle.image.specs.Stored.{stored_at, stored_page, blend};
ghost use Rattle.image.specs.Tables.{register_at};

pub mod registers;
mod tables;

use registers::{BOR, FULL_PASSWORD, MIP, PASSWORD_CONTROL, READ_PASSWORD, THF, TLF};
use tables::{ALWAYS_ONE, NAMED, WRITABLE};

// Where the register pages, the calibration and the log lie in the image. User memory lies at 0.
pub const REGISTERS_AT: usize = 512;

pub const CALIBRATION_AT: usize = 576;

pub const LOG_AT: usize = 640;

// One bit of the image: where its byte lies, and which of the eight it is, 0 the lowest.
#[derive(Clone, Copy)]
pub struct Bit(pub usize, pub u8);

// Where an address lies, with the offset inside the region.
#[derive(Clone, Copy)]
pub enum Region {
    User(u16),
    Registers(u16),
    Calibration(u16),
    Reserved,
    Log(u16),
}

// What Read Memory sends at an address. `code` is the record's configuration code, which no byte of the image holds.
#[tactic(auto, using(crate::specs::Map::Laws::register_offset_lt), unfolding(crate::specs::Sent::sent_at, crate::specs::Sent::sent_in, crate::specs::Sent::sent_byte, crate::specs::Tables::register_at, crate::specs::Tables::always_one))]
pub fn sent(image: &[u8], code: u8, address: u16) -> u8
    ensures { result ≡ sent_at image.now code address }
{
    match region_of(address) {
        Region::User(offset) => peek(image, offset as usize),
        Region::Registers(0x26) => code,
        Region::Registers(offset) => {
            let o = offset as usize;
            register(image, o) | ALWAYS_ONE[o]
        }
        Region::Calibration(offset) => peek(image, CALIBRATION_AT + offset as usize),
        Region::Reserved => 0,
        Region::Log(offset) => peek(image, LOG_AT + offset as usize),
    }
}

// The named bits of the register at an offset from 0200h; past the 64 there are none.
#[tactic(auto, using(crate::specs::Tables::Laws::register_past), unfolding(crate::specs::Tables::register_at, crate::specs::Tables::named))]
pub fn register(image: &[u8], offset: usize) -> u8
    ensures { result ≡ register_at image.now offset }
{
    if offset < 64 {
        peek(image, REGISTERS_AT + offset) & NAMED[offset]
    } else {
        0
    }
}

// Copy stores one byte: whole in user memory and calibration, through the writable bits in a register, nowhere else.
#[tactic(auto, using(crate::specs::Map::Laws::register_offset_lt), unfolding(crate::specs::Stored::stored_at, crate::specs::Stored::stored_in, crate::specs::Stored::stored_byte, crate::specs::Tables::writable))]
pub fn store(image: &mut [u8], address: u16, b: u8)
    ensures { image.new ≡ stored_at image.old address b }
{
    match region_of(address) {
        Region::User(offset) => poke(image, offset as usize, b),
        Region::Registers(offset) => {
            let o = offset as usize;
            let kept = blended(WRITABLE[o], peek(image, REGISTERS_AT + o), b);
            poke(image, REGISTERS_AT + o, kept);
        }
        Region::Calibration(offset) => poke(image, CALIBRATION_AT + offset as usize, b),
        Region::Reserved | Region::Log(_) => {}
    }
}

// The old byte's bits outside the mask, the new byte's inside.
#[tactic(auto, unfolding(crate::specs::Stored::blend))]
fn blended(mask: u8, old: u8, new: u8) -> u8
    ensures { result ≡ blend mask old new }
{
    (old & !mask) | (new & mask)
}

// Copy: the scratchpad's bytes from the address's offset to the page's end, each stored at its address.
#[tactic(auto, unfolding(crate::specs::Stored::stored_page, crate::specs::Stored::stored_run))]
pub fn store_page(image: &mut [u8], pad: [u8; 32], address: u16)
    ensures { image.new ≡ stored_page image.old pad address }
{
    let page = address - address % 32;
    for i in address % 32..32 {
        store(image, page + i, pad[i as usize]);
    }
}

// The region of an address.
#[tactic(auto, unfolding(crate::specs::Map::region_at))]
pub fn region_of(address: u16) -> Region
    ensures { result ≡ region_at address }
{
    match address {
        0x0000..=0x01FF => Region::User(address),
        0x0200..=0x023F => Region::Registers(address - 0x0200),
        0x0240..=0x027F => Region::Calibration(address - 0x0240),
        0x0280..=0x0FFF => Region::Reserved,
        0x1000..=0x2FFF => Region::Log(address - 0x1000),
        _ => Region::Reserved,
    }
}

// The number in `count` bytes from `at` on, low byte first; of more than eight, the first eight.
// Two numbers and no struct: half of the calls are of a record's or a head's bytes, where `Word { at: 24, count: 8 }` is no plainer.
#[tactic(auto, using(crate::specs::Fields::Laws::word_past, crate::specs::Fields::Laws::word_next, crate::specs::Fields::Laws::word_none))]
pub fn word(image: &[u8], at: usize, count: usize) -> u64
    ensures { result ≡ word_at image.now at (min count 8) }
{
    if image.len() <= at {
        return 0;
    }
    let mut v: u64 = 0;
    for i in (0..count.min(8)).rev() {
        v = v * 256 + peek(image, at + i) as u64;
    }
    v
}

// Stores a number there, low byte first, as much of it as the bytes hold.
#[tactic(auto, using(crate::specs::Fields::Laws::put_word_past, crate::specs::Fields::Laws::put_word_next, crate::specs::Fields::Laws::put_word_none))]
pub fn put_word(image: &mut [u8], at: usize, count: usize, v: u64)
    ensures { image.new ≡ put_word image.old at (min count 8) v }
{
    if image.len() <= at {
        return;
    }
    let mut rest = v;
    for i in 0..count.min(8) {
        poke(image, at + i, (rest % 256) as u8);
        rest /= 256;
    }
}

// That bit.
#[tactic(auto, unfolding(crate::specs::Fields::flag_at))]
pub fn flag(image: &[u8], bit: Bit) -> bool
    ensures { result ≡ flag_at image.now bit.0 bit.1 }
{
    bits::bit(peek(image, bit.0) as u64, bit.1)
}

// Makes that bit `b`; a byte has eight.
#[tactic(auto, unfolding(crate::specs::Fields::put_flag, crate::specs::Fields::with_bit))]
pub fn put_flag(image: &mut [u8], bit: Bit, b: bool)
    ensures { image.new ≡ put_flag image.old bit.0 bit.1 b }
{
    if bit.1 < 8 {
        let others = peek(image, bit.0) & !(1u8 << bit.1);
        poke(image, bit.0, others | (u8::from(b) << bit.1));
    }
}

// The byte at `at`; past the end, 0. By index: what `get` answers lies otherwise where a pointer has 32 bits (chip/README.md).
pub fn peek(image: &[u8], at: usize) -> u8
    ensures { result ≡ get_or image.now at 0 }
{
    if at < image.len() { image[at] } else { 0 }
}

// Stores a byte at `at`; past the end, nothing. By index: of a write through `get_mut` a proof knows the length alone.
pub fn poke(image: &mut [u8], at: usize, b: u8)
    ensures { image.new ≡ set image.old at b }
{
    if at < image.len() {
        image[at] = b;
    }
}

// Stores bytes from `at` on; what falls past the end is left out. By index: the library's copy takes addresses for numbers, which the build
// for chips lets through nowhere (chip/README.md, "No pointer is a number").
#[tactic(auto, using(bits::specs::Stores::sets_past, crate::specs::Fields::Laws::bytes_more))]
pub fn put_bytes(image: &mut [u8], at: usize, bytes: &[u8])
    ensures { image.new ≡ sets image.old at bytes.now }
{
    if image.len() <= at {
        return;
    }
    for (i, &byte) in bytes.iter().enumerate() {
        poke(image, at + i, byte);
    }
}

// Conditional Search asks: is BOR, THF or TLF 1?
#[tactic(auto, unfolding(crate::specs::Answers::alarmed))]
pub fn alarm(image: &[u8]) -> bool
    ensures { result ≡ alarmed image.now }
{
    flag(image, BOR) || flag(image, THF) || flag(image, TLF)
}

// Read Memory asks: may this password field read?
#[tactic(auto, unfolding(crate::specs::Answers::may_read))]
pub fn may_read(image: &[u8], field: u64) -> bool
    ensures { result ≡ may_read image.now field }
{
    may_control(image, field) || field == word(image, READ_PASSWORD, 8)
}

// Clear, Start and Stop ask: may this password field do it?
#[tactic(auto, unfolding(crate::specs::Answers::may_control, crate::specs::Answers::checked))]
pub fn may_control(image: &[u8], field: u64) -> bool
    ensures { result ≡ may_control image.now field }
{
    peek(image, PASSWORD_CONTROL) != 0xAA || field == word(image, FULL_PASSWORD, 8)
}

// Copy asks: may this password field write at this address now?
#[tactic(auto, unfolding(crate::specs::Answers::may_copy))]
pub fn may_copy(image: &[u8], field: u64, address: u16) -> bool
    ensures { result ≡ may_copy image.now field address }
{
    (address < 0x0200 || address < 0x0280 && !flag(image, MIP)) && may_control(image, field)
}
