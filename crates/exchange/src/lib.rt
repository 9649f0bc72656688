// The exchange on the line as a machine by value: a tag is chosen, then one memory command is carried on, slot by slot.
// It never sees the image. What it must know it asks (`ask`), and what is to be done it returns (a `Deed`).
// Public functions stay free, and no methods of `Exchange`: `promises` `Determinacy` has a line for each by its name.
// An answer stays a number, as `memory` has it.
#![tactic(auto)]

ghost use Rattle.std.specs.Prelude.{◌≡◌, eqb};
ghost use Rattle.memory.specs.Memory.{slot_of as memory_slot};
ghost use Rattle.select.specs.Select.{slot_of as select_slot};
ghost use Rattle.exchange.specs.Exchange.{new_exchange, begun, after_reset, after_short, asks, slot_of, commanded, choosing, exchange_in_range};

use bus::{Bus, Deed, Hearing, Held, Moved, Question, Stage};
use select::{Chosen, Select};

#[derive(Clone, Copy)]
pub struct Exchange {
    // The registration number, low byte first.
    pub number: u64,
    pub select: Select,
    pub held: Held,
    pub bus: Bus,
}

// What a slot leaves.
#[derive(Drop)]
pub struct Slotted {
    pub exchange: Exchange,
    pub line: bool,
    pub deed: Deed,
}

// A new tag's exchange: everything clear, and it waits for a reset.
pub fn new(number: u64) -> Exchange
    ensures { result ≡ new_exchange number }
{
    Exchange {
        number,
        select: select::waiting(),
        held: bus::blank(),
        bus: bus::state::clear(Stage::Over),
    }
}

// A long reset breaks off whatever is under way; scratchpad, TA, E/S and the Resume mark stay, and the speed is standard again.
pub fn reset(x: Exchange) -> Exchange
    ensures { result ≡ after_reset x }
{
    begin(x, select::reset(x.select))
}

// A short reset breaks off at overdrive too, and the speed stays; at standard speed it does nothing.
#[tactic(auto, unfolding(crate::specs::Exchange::after_short))]
pub fn short_reset(x: Exchange) -> Exchange
    ensures { result ≡ after_short x }
{
    if select::overdrive(x.select) {
        begin(x, select::restart(x.select))
    } else {
        x
    }
}

// A ROM command is heard next, as `select` says.
fn begin(x: Exchange, select: Select) -> Exchange
    ensures { result ≡ begun x select }
{
    let bus = bus::state::clear(Stage::Hears(Hearing::Command));
    Exchange { select, bus, ..x }
}

// What must be known of the image in a slot of the master's `bit`.
#[tactic(auto, unfolding(crate::specs::Exchange::asks))]
pub fn ask(x: Exchange, bit: bool) -> Question
    ensures { result ≡ asks x bit }
{
    if select::selected(x.select) {
        memory::ask(x.bus, bit)
    } else if select::asks_alarm(x.select, bit) {
        Question::Alarm
    } else {
        Question::Nothing
    }
}

// One slot of the master's `bit`; `answer` is the answer to what `ask` asks of the same slot.
#[tactic(auto, unfolding(crate::specs::Exchange::slot_of))]
pub fn slot(x: Exchange, bit: bool, answer: u8) -> Slotted
    ensures { result ≡ slot_of x bit answer }
{
    if select::selected(x.select) {
        command_slot(x, bit, answer)
    } else {
        choosing_slot(x, bit, answer)
    }
}

// A slot of a memory command.
fn command_slot(x: Exchange, bit: bool, answer: u8) -> Slotted
    ensures { result ≡ commanded x (memory_slot x.held x.bus bit answer) }
{
    let Moved {
        held,
        bus,
        line,
        deed,
    } = memory::slot(x.held, x.bus, bit, answer);
    Slotted {
        exchange: Exchange { held, bus, ..x },
        line,
        deed,
    }
}

// A slot before the tag is chosen.
fn choosing_slot(x: Exchange, bit: bool, answer: u8) -> Slotted
    ensures { result ≡ choosing x (select_slot x.select x.number bit (eqb answer 1)) }
{
    let Chosen { select, line } = select::slot(x.select, x.number, bit, answer == 1);
    Slotted {
        exchange: Exchange { select, ..x },
        line,
        deed: Deed::Nothing,
    }
}

// Whether an exchange keeps to its ranges (docs/RANGES.md).
pub fn in_range(x: Exchange) -> bool
    ensures { result ≡ exchange_in_range x }
{
    select::in_range(x.select) && memory::in_range(x.held, x.bus)
}
