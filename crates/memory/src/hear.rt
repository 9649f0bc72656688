// What the tag hears, byte by byte: the command, an address, data for the scratchpad, Copy's E/S, a control command's last byte.
ghost use Rattle.std.specs.Prelude.{◌≡◌};
ghost use Rattle.bus.specs.declared.Deed.{Deed};
ghost use Rattle.bus.specs.Bus.{listens};
ghost use Rattle.memory.specs.Hear.{heard_bit, heard_whole, command_stage, address_heard, loaded, stored, after_data, under_way, confirmed, deed_of};

use bus::{
    Addressed, Bus, Control, Deed, Guarded, Hearing, Held, Moved, Next, Sending, Stage, state,
};

// One bit heard. The bits of a byte come low bit first, and with its eighth the byte is whole.
#[tactic(auto, unfolding(crate::specs::Hear::heard_bit))]
pub(crate) fn hear(h: Hearing, held: Held, bus: Bus, bit: bool) -> Moved
    ensures { result ≡ heard_bit h held bus bit }
{
    let byte = bits::shift_in(bus.byte, bit);
    if bus.at < 7 {
        go_on(begin(h, held), state::pass(bus, byte, bus.at + 1))
    } else {
        whole(h, held, bus, byte)
    }
}

// A slot in which the tag only listens, and nothing is to be done.
fn go_on(held: Held, bus: Bus) -> Moved
    ensures { result ≡ listens held bus Deed.Nothing }
{
    state::listen(held, bus, Deed::Nothing)
}

// A data byte that has begun is a broken one until it is whole: PF is 1 meanwhile.
fn begin(h: Hearing, held: Held) -> Held
    ensures { result ≡ under_way h held }
{
    match h {
        Hearing::Data(_) => Held { pf: true, ..held },
        _ => held,
    }
}

// A whole byte is heard.
#[tactic(auto, unfolding(crate::specs::Hear::heard_whole))]
fn whole(h: Hearing, held: Held, bus: Bus, byte: u8) -> Moved
    ensures { result ≡ heard_whole h held bus byte }
{
    match h {
        // The CRC-16 begins with the command.
        Hearing::Command => {
            let bus = state::fresh_crc(bus);
            go_on(held, state::count(bus, byte, command_stage(byte)))
        }
        Hearing::Low(a) => {
            let bus = state::at_address(state::add(bus, byte), u16::from(byte));
            go_on(held, state::to(bus, Stage::Hears(Hearing::High(a))))
        }
        Hearing::High(a) => {
            let [ta1, _] = bus.address.to_le_bytes();
            let address = u16::from_le_bytes([ta1, byte]);
            addressed(a, held, state::at_address(state::add(bus, byte), address))
        }
        Hearing::Data(place) => {
            let held = store(held, place, byte);
            go_on(held, state::count(bus, byte, after_data(place)))
        }
        Hearing::Status => {
            let bus = state::note(bus, byte);
            go_on(held, state::to(bus, Stage::Gathers(Guarded::Copying)))
        }
        Hearing::Confirm(control) => confirm(control, held, bus, byte),
    }
}

// Which stage a command byte leads to.
#[tactic(auto, unfolding(crate::specs::Hear::command_stage))]
fn command_stage(byte: u8) -> Stage
    ensures { result ≡ command_stage byte }
{
    match byte {
        0x0F => Stage::Hears(Hearing::Low(Addressed::Write)),
        0xAA => Stage::Sends(Sending::PadLow),
        0x99 => Stage::Hears(Hearing::Low(Addressed::Copy)),
        0x69 => Stage::Hears(Hearing::Low(Addressed::Read)),
        0x96 => Stage::Gathers(Guarded::Controlling(Control::Clear)),
        0xCC => Stage::Gathers(Guarded::Controlling(Control::Start)),
        0x33 => Stage::Gathers(Guarded::Controlling(Control::Stop)),
        0x55 => Stage::Hears(Hearing::Confirm(Control::Convert)),
        _ => Stage::Over,
    }
}

// Both address bytes are in.
#[tactic(auto, unfolding(crate::specs::Hear::address_heard))]
fn addressed(a: Addressed, held: Held, bus: Bus) -> Moved
    ensures { result ≡ address_heard a held bus }
{
    match a {
        Addressed::Write => {
            let offset = (bus.address % 32) as u8;
            let held = load(held, bus.address);
            go_on(held, state::to(bus, Stage::Hears(Hearing::Data(offset))))
        }
        Addressed::Copy => go_on(held, state::to(bus, Stage::Hears(Hearing::Status))),
        Addressed::Read => go_on(held, state::to(bus, Stage::Gathers(Guarded::Reading))),
    }
}

// TA loads; PF is 1 until the first whole byte, so that an address with no data is never copied.
fn load(held: Held, address: u16) -> Held
    ensures { result ≡ loaded held address }
{
    Held {
        ta: address,
        ending: (address % 32) as u8,
        pf: true,
        aa: false,
        ..held
    }
}

// A whole data byte, at its place of the scratchpad. A place past the end keeps nothing. By index: behind a `get_mut` no proof knows
// the elements.
#[tactic(auto, unfolding(crate::specs::Hear::stored))]
fn store(held: Held, place: u8, byte: u8) -> Held
    ensures { result ≡ stored held place byte }
{
    let mut pad = held.pad;
    if place < 32 {
        pad[usize::from(place)] = byte;
    }
    Held {
        pad,
        ending: place,
        pf: false,
        ..held
    }
}

// What follows a data byte. No twin of `send::after_pad`: the stages are of other kinds, and a closure for the stage is longer than the `if`.
#[tactic(auto, unfolding(crate::specs::Hear::after_data))]
fn after_data(place: u8) -> Stage
    ensures { result ≡ after_data place }
{
    if place < 31 {
        Stage::Hears(Hearing::Data(place + 1))
    } else {
        Stage::Sends(Sending::CrcLow(Next::Nothing))
    }
}

// The last byte of a control command: FFh, or it is not done.
#[tactic(auto, unfolding(crate::specs::Hear::confirmed))]
fn confirm(control: Control, held: Held, bus: Bus, byte: u8) -> Moved
    ensures { result ≡ confirmed control held bus byte }
{
    let deed = if byte == 0xFF {
        deed(control)
    } else {
        Deed::Nothing
    };
    state::listen(held, state::to(bus, Stage::Over), deed)
}

// No `From`, which would have to stand in `bus`: what a command does is this crate's.
fn deed(control: Control) -> Deed
    ensures { result ≡ deed_of control }
{
    match control {
        Control::Clear => Deed::Clear,
        Control::Start => Deed::Start,
        Control::Stop => Deed::Stop,
        Control::Convert => Deed::Convert,
    }
}
