// What the tag sends, byte by byte: Read Scratchpad, Read Memory, and the CRC-16 behind them.
ghost use Rattle.std.specs.Prelude.{◌≡◌};
ghost use Rattle.bus.specs.declared.Deed.{Deed};
ghost use Rattle.memory.specs.Send.{first_byte, after_pad, after_memory, after_page, after_crc, sent_whole, outgoing, sent_bit, alternating, send_asks};

use bus::{Bus, Deed, Held, Moved, Next, Question, Sending, Stage, state};

// What is asked of the image: Read Memory's byte, at its first slot.
#[tactic(auto, unfolding(crate::specs::Send::send_asks))]
pub(crate) fn send_asks(s: Sending, bus: Bus) -> Question
    ensures { result ≡ send_asks s bus }
{
    match s {
        Sending::Memory if bus.at == 0 => Question::Byte(bus.address),
        _ => Question::Nothing,
    }
}

// One bit goes out, whatever the master does. `memory` is what the image holds for Read Memory.
#[tactic(auto, unfolding(crate::specs::Send::sent_bit))]
pub(crate) fn send(s: Sending, held: Held, bus: Bus, memory: u8) -> Moved
    ensures { result ≡ sent_bit s held bus memory }
{
    let byte = going(s, held, bus, memory);
    let line = bits::bit(u64::from(byte), bus.at);
    let bus = if bus.at < 7 {
        state::pass(bus, byte, bus.at + 1)
    } else {
        whole(s, held, bus, byte)
    };
    out(held, bus, line)
}

// A slot in which the tag sends: its own bit goes out.
fn out(held: Held, bus: Bus, line: bool) -> Moved
    ensures { result ≡ record { held = held; bus = bus; line = line; deed = Deed.Nothing } }
{
    Moved {
        held,
        bus,
        line,
        deed: Deed::Nothing,
    }
}

// The byte going out is taken at its first slot, and kept.
#[tactic(auto, unfolding(crate::specs::Send::outgoing))]
fn going(s: Sending, held: Held, bus: Bus, memory: u8) -> u8
    ensures { result ≡ outgoing s held bus memory }
{
    if bus.at == 0 {
        first(s, held, bus, memory)
    } else {
        bus.byte
    }
}

#[tactic(auto, unfolding(crate::specs::Send::first_byte))]
fn first(s: Sending, held: Held, bus: Bus, memory: u8) -> u8
    ensures { result ≡ first_byte s held bus memory }
{
    let [ta1, ta2] = held.ta.to_le_bytes();
    match s {
        Sending::PadLow => ta1,
        Sending::PadHigh => ta2,
        Sending::PadStatus => state::status_byte(held),
        Sending::PadData(place) => state::pad_byte(held, place),
        Sending::Memory => memory,
        Sending::CrcLow(_) => crc::sent_low(bus.crc),
        Sending::CrcHigh(_) => crc::sent_high(bus.crc),
    }
}

// A whole byte has gone out.
#[tactic(auto, unfolding(crate::specs::Send::sent_whole))]
fn whole(s: Sending, held: Held, bus: Bus, byte: u8) -> Bus
    ensures { result ≡ sent_whole s held bus byte }
{
    match s {
        Sending::PadLow => state::count(bus, byte, Stage::Sends(Sending::PadHigh)),
        Sending::PadHigh => state::count(bus, byte, Stage::Sends(Sending::PadStatus)),
        Sending::PadStatus => {
            let offset = (held.ta % 32) as u8;
            state::count(bus, byte, Stage::Sends(Sending::PadData(offset)))
        }
        Sending::PadData(place) => state::count(bus, byte, after_pad(place)),
        Sending::Memory => after_memory(state::add(bus, byte)),
        Sending::CrcLow(next) => state::to(bus, Stage::Sends(Sending::CrcHigh(next))),
        Sending::CrcHigh(next) => after_crc(next, bus),
    }
}

#[tactic(auto, unfolding(crate::specs::Send::after_pad))]
fn after_pad(place: u8) -> Stage
    ensures { result ≡ after_pad place }
{
    if place < 31 {
        Stage::Sends(Sending::PadData(place + 1))
    } else {
        Stage::Sends(Sending::CrcLow(Next::Nothing))
    }
}

// Read Memory goes on to the page's end, then sends the CRC-16.
#[tactic(auto, unfolding(crate::specs::Send::after_memory))]
fn after_memory(bus: Bus) -> Bus
    ensures { result ≡ after_memory bus }
{
    let address = bus.address;
    if address % 32 < 31 {
        state::to(
            state::at_address(bus, address + 1),
            Stage::Sends(Sending::Memory),
        )
    } else {
        state::to(bus, Stage::Sends(Sending::CrcLow(Next::Page)))
    }
}

#[tactic(auto, unfolding(crate::specs::Send::after_crc))]
fn after_crc(next: Next, bus: Bus) -> Bus
    ensures { result ≡ after_crc next bus }
{
    match next {
        Next::Nothing => state::to(bus, Stage::Over),
        Next::Page => after_page(bus),
    }
}

// The next page with a CRC-16 of its own, or the end at 2FFFh.
#[tactic(auto, unfolding(crate::specs::Send::after_page))]
fn after_page(bus: Bus) -> Bus
    ensures { result ≡ after_page bus }
{
    let address = bus.address;
    if address < 0x2FFF {
        let bus = state::at_address(state::fresh_crc(bus), address + 1);
        state::to(bus, Stage::Sends(Sending::Memory))
    } else {
        state::to(bus, Stage::Over)
    }
}

// After a Copy that is done: 0, 1, 0, 1 on.
#[tactic(auto, unfolding(crate::specs::Send::alternating))]
pub(crate) fn alternate(held: Held, bus: Bus) -> Moved
    ensures { result ≡ alternating held bus }
{
    if bus.at == 0 {
        out(held, state::pass(bus, bus.byte, 1), false)
    } else {
        out(held, state::pass(bus, bus.byte, 0), true)
    }
}
