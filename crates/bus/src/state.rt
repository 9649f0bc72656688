// The bus state and the held registers with one thing changed, each by the definition of its name in specs/Bus.antt.
// Free functions and no methods of `Bus`: each is public by its name, and `promises` `Determinacy` has a line for each.
ghost use Rattle.std.specs.Prelude.{◌≡◌};
ghost use Rattle.bus.specs.Bus.{clear_bus, go_to, passing, adding, counting, addressing, noting, fresh_crc, listens, status_byte, pad_byte};

use crate::{Bus, Deed, Held, Moved, Stage};

// Nothing is under way but this stage.
pub fn clear(stage: Stage) -> Bus
    ensures { result ≡ clear_bus stage }
{
    Bus {
        stage,
        byte: 0,
        at: 0,
        crc: 0,
        address: 0,
        status: 0,
        field: 0,
    }
}

// The next byte or password field begins, at this stage.
pub fn to(bus: Bus, stage: Stage) -> Bus
    ensures { result ≡ go_to bus stage }
{
    Bus {
        stage,
        byte: 0,
        at: 0,
        field: 0,
        ..bus
    }
}

// A byte under way, with this many bits past.
pub fn pass(bus: Bus, byte: u8, at: u8) -> Bus
    ensures { result ≡ passing bus byte at }
{
    Bus { byte, at, ..bus }
}

// A byte counts in the CRC-16.
pub fn add(bus: Bus, byte: u8) -> Bus
    ensures { result ≡ adding bus byte }
{
    Bus {
        crc: crc::crc16_byte(bus.crc, byte),
        ..bus
    }
}

// A byte counts in the CRC-16, and the next one begins, at this stage.
pub fn count(bus: Bus, byte: u8, stage: Stage) -> Bus
    ensures { result ≡ counting bus byte stage }
{
    to(add(bus, byte), stage)
}

// The CRC-16 begins anew.
pub fn fresh_crc(bus: Bus) -> Bus
    ensures { result ≡ fresh_crc bus }
{
    Bus { crc: 0, ..bus }
}

// Another address.
pub fn at_address(bus: Bus, address: u16) -> Bus
    ensures { result ≡ addressing bus address }
{
    Bus { address, ..bus }
}

// Copy's E/S as sent.
pub fn note(bus: Bus, status: u8) -> Bus
    ensures { result ≡ noting bus status }
{
    Bus { status, ..bus }
}

// A slot in which the tag only listens: its own bit is 1.
pub fn listen(held: Held, bus: Bus, deed: Deed) -> Moved
    ensures { result ≡ listens held bus deed }
{
    Moved {
        held,
        bus,
        line: true,
        deed,
    }
}

// E/S as a byte: AA in bit 7, PF in bit 5, the ending offset in bits 4-0.
#[tactic(auto, unfolding(crate::specs::Bus::status_byte))]
pub fn status_byte(held: Held) -> u8
    ensures { result ≡ status_byte held }
{
    128 * u8::from(held.aa) + 32 * u8::from(held.pf) + held.ending % 32
}

// The scratchpad's byte at a place; past its end there is none, and 0 stands for it. By index, as `image::peek`.
#[tactic(auto, unfolding(crate::specs::Bus::pad_byte))]
pub fn pad_byte(held: Held, place: u8) -> u8
    ensures { result ≡ pad_byte held place }
{
    if place < 32 {
        held.pad[usize::from(place)]
    } else {
        0
    }
}
