// The memory commands of a chosen tag, slot by slot, as a machine by value: what is heard, what is sent, and the ranges of what lies
// between. It never sees the image. What it must know it asks (`ask`), and what is to be done it returns (a `Deed`).
// `held` and `bus` stay two parameters, here and in `field`: the definitions take two, `Exchange` and `Moved` have two, and one struct
// of both would be taken apart at every use. An answer stays a number: `Memory.slot_of`, and demand 3 over it, has one for any question.
// A step is told by a match on the stage, here, in `hear` and in `send`: a record packs a stage by its place, so that none is a closure.
#![tactic(auto)]

ghost use Rattle.std.specs.Prelude.{◌≡◌};
ghost use Rattle.memory.specs.Range.{memory_in_range};
ghost use Rattle.memory.specs.Memory.{asks, slot_of, on_line, stage_slot};

use bus::{Bus, Deed, Held, Moved, Question, Stage, state};

mod hear;
mod range;
mod send;

// What must be known of the image in a slot of the master's `bit`.
#[tactic(auto, unfolding(crate::specs::Memory::asks, crate::specs::Memory::stage_asks))]
pub fn ask(bus: Bus, bit: bool) -> Question
    ensures { result ≡ asks bus bit }
{
    match bus.stage {
        Stage::Gathers(g) => field::ask(g, bus, bit),
        Stage::Sends(s) => send::send_asks(s, bus),
        Stage::Over | Stage::Hears(_) | Stage::Copied => Question::Nothing,
    }
}

// One slot of the master's `bit`; `answer` is the answer to what `ask` asks of the same slot.
#[tactic(auto, unfolding(crate::specs::Memory::slot_of))]
pub fn slot(held: Held, bus: Bus, bit: bool, answer: u8) -> Moved
    ensures { result ≡ slot_of held bus bit answer }
{
    on_line(bit, step(held, bus, bit, answer))
}

// The line is the master's bit and the tag's, combined by AND. As one struct with `line: bit && moved.line` an event counts 5 to 14 more.
#[tactic(auto, unfolding(crate::specs::Memory::on_line))]
fn on_line(bit: bool, moved: Moved) -> Moved
    ensures { result ≡ on_line bit moved }
{
    if bit {
        moved
    } else {
        Moved {
            line: false,
            ..moved
        }
    }
}

// A slot by the stage that it finds.
#[tactic(auto, unfolding(crate::specs::Memory::stage_slot))]
fn step(held: Held, bus: Bus, bit: bool, answer: u8) -> Moved
    ensures { result ≡ stage_slot bus.stage held bus bit answer }
{
    match bus.stage {
        Stage::Over => state::listen(held, bus, Deed::Nothing),
        Stage::Hears(h) => hear::hear(h, held, bus, bit),
        Stage::Gathers(g) => field::gather(g, held, bus, bit, answer == 1),
        Stage::Sends(s) => send::send(s, held, bus, answer),
        Stage::Copied => send::alternate(held, bus),
    }
}

// Whether these are values that a new tag can lead to: docs/RANGES.md, refusal 6.
#[tactic(auto, unfolding(crate::specs::Range::memory_in_range))]
pub fn in_range(held: Held, bus: Bus) -> bool
    ensures { result ≡ memory_in_range held bus }
{
    range::from_offset(held, held.ending) && range::stage_in_range(held, bus)
}
