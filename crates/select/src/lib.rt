// Choosing a tag on the line: the ROM commands, slot by slot, over a registration number whose bit i is bit i on the line.
// It knows nothing of what a chosen tag does; once the tag is selected the memory commands are another crate's.
// Every function answers any input, also a place past the last bit.
// Public functions stay free, and no methods of `Select`: `promises` `Determinacy` has a line for each by its name.
#![tactic(auto)]

mod modes;

ghost use Rattle.std.specs.Prelude.{◌≡◌};
ghost use Rattle.select.specs.Select.{speed_in, new_select, reset_select, restarted, slot_of, is_selected, asks_alarm, select_in_range, command_bit, rom_command, keeps, read_bit, heard_bit, following, sends};

// Where the choosing of a tag stands. A packed record has a case by its place here (crate `packing`): a new one goes last. The two values
// of `Command` and of `Matching` count in every one of them, so none is an Option; `Select.slot_at` and its laws name them so.
#[derive(Clone, Copy)]
pub enum Choosing {
    // sends and hears nothing until a reset
    Silent,
    // the ROM command's byte: what is heard of it so far, and how many bits
    Command(u8, u8),
    // Read: this bit of the number goes out next
    Reading(u8),
    // Match: whether it is the overdrive one, and the bit of the number that is to be heard next
    Matching(bool, u8),
    // Search: this bit goes out next, then its complement, then the choice is heard
    Giving(u8),
    Complementing(u8),
    Awaiting(u8),
    // the memory commands follow
    Selected,
}

// What outlasts a ROM command: the Resume mark and the speed, in one byte, so that a record is copied in whole words (bench/README.md). A
// packed record has a case by its place here.
#[derive(Clone, Copy)]
pub enum Mode {
    // standard speed, no mark
    Plain,
    // standard speed, marked
    Marked,
    // overdrive, no mark
    Overdrive,
    // overdrive, marked
    OverdriveMarked,
}

// What choosing keeps from slot to slot, and `mode` from reset to reset.
#[derive(Clone, Copy)]
pub struct Select {
    pub choosing: Choosing,
    pub mode: Mode,
}

// What one slot gives: how choosing goes on, and the line bit.
#[derive(Drop)]
pub struct Chosen {
    pub select: Select,
    pub line: bool,
}

// A new tag: it waits for a reset.
pub fn waiting() -> Select
    ensures { result ≡ new_select }
{
    keep(Mode::made(false, false), Choosing::Silent)
}

// After a long reset a ROM command is heard; only the Resume mark is kept.
pub fn reset(select: Select) -> Select
    ensures { result ≡ reset_select select }
{
    let mode = Mode::made(select.mode.mark(), false);
    keep(mode, Choosing::Command(0, 0))
}

// After a short reset at overdrive too, and the speed is kept beside the mark.
pub fn restart(select: Select) -> Select
    ensures { result ≡ restarted select }
{
    keep(select.mode, Choosing::Command(0, 0))
}

// Whether the tag is at overdrive.
pub fn overdrive(select: Select) -> bool
    ensures { result ≡ speed_in select.mode }
{
    select.mode.speed()
}

// Whether `select` keeps to its ranges.
#[tactic(auto, unfolding(crate::specs::Select::choosing_in_range))]
pub fn in_range(select: Select) -> bool
    ensures { result ≡ select_in_range select }
{
    match select.choosing {
        Choosing::Silent | Choosing::Selected => true,
        Choosing::Command(_, count) => count < 8,
        Choosing::Reading(at)
        | Choosing::Matching(_, at)
        | Choosing::Giving(at)
        | Choosing::Complementing(at)
        | Choosing::Awaiting(at) => at < 64,
    }
}

// Whether the tag is chosen: its slots are those of a memory command.
#[tactic(auto, unfolding(crate::specs::Select::is_chosen))]
pub fn selected(select: Select) -> bool
    ensures { result ≡ is_selected select }
{
    matches!(select.choosing, Choosing::Selected)
}

// Whether a slot with the master's `bit` ends the byte of a Conditional Search: the one slot in which `alarm` counts.
#[tactic(auto, unfolding(crate::specs::Select::ends_command))]
pub fn asks_alarm(select: Select, bit: bool) -> bool
    ensures { result ≡ asks_alarm select bit }
{
    match select.choosing {
        Choosing::Command(heard, count) => count >= 7 && bits::shift_in(heard, bit) == 0xEC,
        _ => false,
    }
}

// One slot: `bit` is true with the line released by the master, false with the line held low. A slot in which the tag
// sends uses up its bit either way. A selected tag's slots are not choosing's: it stays as it is.
#[tactic(auto, unfolding(crate::specs::Select::slot_of, crate::specs::Select::slot_at))]
pub fn slot(select: Select, number: u64, bit: bool, alarm: bool) -> Chosen
    ensures { result ≡ slot_of select number bit alarm }
{
    let mode = select.mode;
    match select.choosing {
        Choosing::Silent | Choosing::Selected => send(true, bit, select),
        Choosing::Command(heard, count) => {
            let next = command_bit(heard, count, mode, bit, alarm);
            send(true, bit, next)
        }
        Choosing::Reading(at) => send(bits::bit(number, at), bit, read_bit(at, mode)),
        Choosing::Matching(fast, at) => {
            let next = Choosing::Matching(fast, following(at));
            send(true, bit, hear_bit(number, at, bit, next, fast, mode))
        }
        Choosing::Giving(at) => {
            let next = keep(mode, Choosing::Complementing(at));
            send(bits::bit(number, at), bit, next)
        }
        Choosing::Complementing(at) => {
            let next = keep(mode, Choosing::Awaiting(at));
            send(!bits::bit(number, at), bit, next)
        }
        Choosing::Awaiting(at) => {
            let next = Choosing::Giving(following(at));
            send(true, bit, hear_bit(number, at, bit, next, false, mode))
        }
    }
}

// The slot's bit: the master's and the tag's own, by AND; a tag that listens has 1 as its own.
fn send(own: bool, bit: bool, select: Select) -> Chosen
    ensures { result ≡ sends own bit select }
{
    Chosen {
        select,
        line: own && bit,
    }
}

// How choosing goes on, with Resume mark and speed as given.
fn keep(mode: Mode, choosing: Choosing) -> Select
    ensures { result ≡ keeps mode choosing }
{
    Select { choosing, mode }
}

// One more bit of the ROM command's byte.
#[tactic(auto, unfolding(crate::specs::Select::command_bit))]
fn command_bit(heard: u8, count: u8, mode: Mode, bit: bool, alarm: bool) -> Select
    ensures { result ≡ command_bit heard count mode bit alarm }
{
    let byte = bits::shift_in(heard, bit);
    if count < 7 {
        keep(mode, Choosing::Command(byte, count + 1))
    } else {
        rom_command(byte, mode, alarm)
    }
}

// What follows a whole ROM command, and what it does to Resume mark and speed.
#[tactic(auto, unfolding(crate::specs::Select::rom_command))]
fn rom_command(byte: u8, mode: Mode, alarm: bool) -> Select
    ensures { result ≡ rom_command byte mode alarm }
{
    let cleared = Mode::made(false, mode.speed());
    let fast = Mode::made(false, true);
    match byte {
        // Read
        0x33 => keep(cleared, Choosing::Reading(0)),
        // Match
        0x55 => keep(cleared, Choosing::Matching(false, 0)),
        // Overdrive Match, which sets the speed once it is whole
        0x69 => keep(cleared, Choosing::Matching(true, 0)),
        // Search
        0xF0 => keep(cleared, Choosing::Giving(0)),
        // Conditional Search, which only a tag with an alarm joins
        0xEC if alarm => keep(cleared, Choosing::Giving(0)),
        0xEC => keep(cleared, Choosing::Silent),
        // Skip
        0xCC => keep(cleared, Choosing::Selected),
        // Overdrive Skip
        0x3C => keep(fast, Choosing::Selected),
        // Resume, which needs the mark; without it the tag is silent, as after any other byte
        0xA5 if mode.mark() => keep(mode, Choosing::Selected),
        _ => keep(mode, Choosing::Silent),
    }
}

// The bit after bit `at`. After the last there is none; nobody goes there.
#[tactic(auto, unfolding(crate::specs::Select::following))]
fn following(at: u8) -> u8
    ensures { result ≡ following at }
{
    if at < 63 { at + 1 } else { at }
}

// Read ROM, once bit `at` is out.
#[tactic(auto, unfolding(crate::specs::Select::read_bit))]
fn read_bit(at: u8, mode: Mode) -> Select
    ensures { result ≡ read_bit at mode }
{
    if at < 63 {
        keep(mode, Choosing::Reading(following(at)))
    } else {
        keep(mode, Choosing::Selected)
    }
}

// Match or Search, once bit `at` is heard: `next` while bits are left. `fast` is an overdrive Match.
#[tactic(auto, unfolding(crate::specs::Select::heard_bit))]
fn hear_bit(number: u64, at: u8, bit: bool, next: Choosing, fast: bool, mode: Mode) -> Select
    ensures { result ≡ heard_bit number at bit next fast mode }
{
    let own = bits::bit(number, at);
    if own != bit {
        keep(mode, Choosing::Silent)
    } else if at < 63 {
        keep(mode, next)
    } else {
        keep(mode.whole(fast), Choosing::Selected)
    }
}
