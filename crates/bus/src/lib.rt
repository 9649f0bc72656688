// The bus state of the memory commands, and scratchpad, TA and E/S, by value: what a slot finds and what it leaves. What must be known
// of the image is a `Question`, what is to be done to it a `Deed`. A packed record has a stage, and the cases within it, by their places here
// (crate `packing`): a new one goes last.
// `Nothing` stays a case of `Question`, `Deed` and `Next`, and none stands in an Option: definitions that stay name it (`promises`
// `Demand3.Needed.Walk.harmless`, `Ranges.crc_fits`; `memory` `Phases.deed_at`). A stage is a value that a record packs, so no closure.
#![tactic(auto)]

ghost use Rattle.std.specs.Prelude.{◌≡◌};
ghost use Rattle.bus.specs.Bus.{new_held};

pub mod state;

// The commands that take an address.
#[derive(Clone, Copy)]
pub enum Addressed {
    Write,
    Copy,
    Read,
}

// The commands that wait for FFh as their last byte.
#[derive(Clone, Copy)]
pub enum Control {
    Clear,
    Start,
    Stop,
    Convert,
}

// What follows a CRC-16 that the tag has sent.
#[derive(Clone, Copy)]
pub enum Next {
    Nothing,
    Page,
}

// Which byte is heard.
#[derive(Clone, Copy)]
pub enum Hearing {
    Command,
    // TA1, then TA2.
    Low(Addressed),
    High(Addressed),
    // Write Scratchpad: the byte for this place of the scratchpad.
    Data(u8),
    // Copy: E/S.
    Status,
    // The last byte of a control command.
    Confirm(Control),
}

// What the eight bytes of a password field open.
#[derive(Clone, Copy)]
pub enum Guarded {
    Reading,
    Copying,
    Controlling(Control),
}

// Which byte goes out.
#[derive(Clone, Copy)]
pub enum Sending {
    // Read Scratchpad: TA1, TA2, E/S and the byte of this place of the scratchpad.
    PadLow,
    PadHigh,
    PadStatus,
    PadData(u8),
    // Read Memory: the byte at the bus's address.
    Memory,
    // The CRC-16, low byte first.
    CrcLow(Next),
    CrcHigh(Next),
}

// Where the memory command stands.
#[derive(Clone, Copy)]
pub enum Stage {
    // 1s until a reset.
    Over,
    Hears(Hearing),
    Gathers(Guarded),
    Sends(Sending),
    // A Copy is done: 0, 1, 0, 1 on.
    Copied,
}

// The bus state of the memory commands: what a reset sets to one constant.
#[derive(Clone, Copy)]
pub struct Bus {
    pub stage: Stage,
    // The byte under way, heard so far or going out.
    pub byte: u8,
    // How many bits of the byte, or of the password field, are past.
    pub at: u8,
    // The CRC-16 register.
    pub crc: u16,
    // The address bytes as sent; in Read Memory the address of the byte going out.
    pub address: u16,
    // Copy's E/S as sent.
    pub status: u8,
    // The password field as gathered so far.
    pub field: u64,
}

// Scratchpad, TA and E/S: what a reset leaves.
#[derive(Clone, Copy)]
pub struct Held {
    pub pad: [u8; 32],
    pub ta: u16,
    // E4..E0 of E/S.
    pub ending: u8,
    pub pf: bool,
    pub aa: bool,
}

// What must be known of the image in a slot.
#[derive(Drop)]
pub enum Question {
    Nothing,
    // Is BOR, THF or TLF 1?
    Alarm,
    // May this password field read?
    MayRead(u64),
    // May this password field copy to this address now?
    MayCopy(u64, u16),
    // May this password field clear, start or stop?
    MayControl(u64),
    // What does Read Memory send at this address?
    Byte(u16),
}

// What is to be done to the image after a slot.
#[derive(Drop)]
pub enum Deed {
    Nothing,
    // The scratchpad, from TA's offset to the page's end, is stored at TA.
    Store,
    Clear,
    Start,
    Stop,
    Convert,
}

// What a slot of a memory command leaves. `line` is the tag's own bit until `slot` combines it with the master's.
#[derive(Drop)]
pub struct Moved {
    pub held: Held,
    pub bus: Bus,
    pub line: bool,
    pub deed: Deed,
}

// Nothing is under way, and a new tag has nothing held.
pub fn blank() -> Held
    ensures { result ≡ new_held }
{
    Held {
        pad: [0; 32],
        ta: 0,
        ending: 0,
        pf: false,
        aa: false,
    }
}
