// The eight password bytes of a command: gathered whole, and judged once, at their last bit.
#![tactic(auto)]

ghost use Rattle.std.specs.Prelude.{◌≡◌};
ghost use Rattle.field.specs.Field.{gathered_bit, judged, after_reading, after_controlling, copies, as_held, to_the_end, field_asks};

use bus::{Bus, Control, Deed, Guarded, Hearing, Held, Moved, Question, Sending, Stage, state};

// What is asked of the image: whether the field may, once it is whole.
#[tactic(auto, unfolding(crate::specs::Field::field_asks))]
pub fn ask(g: Guarded, bus: Bus, bit: bool) -> Question
    ensures { result ≡ field_asks g bus bit }
{
    if bus.at < 63 {
        return Question::Nothing;
    }
    let field = bits::shift_in(bus.field, bit);
    match g {
        Guarded::Reading => Question::MayRead(field),
        Guarded::Copying => Question::MayCopy(field, bus.address),
        Guarded::Controlling(_) => Question::MayControl(field),
    }
}

// One bit of the field. No partial result exists: the field is compared whole.
#[tactic(auto, unfolding(crate::specs::Field::gathered_bit))]
pub fn gather(g: Guarded, held: Held, bus: Bus, bit: bool, may: bool) -> Moved
    ensures { result ≡ gathered_bit g held bus bit may }
{
    if bus.at < 63 {
        // The CRC-16 counts none of the field's bits.
        let field = bits::shift_in(bus.field, bit);
        let at = bus.at + 1;
        state::listen(held, Bus { field, at, ..bus }, Deed::Nothing)
    } else {
        judge(g, held, bus, may)
    }
}

// The field is whole, and the image has said whether it may.
#[tactic(auto, unfolding(crate::specs::Field::judged))]
fn judge(g: Guarded, held: Held, bus: Bus, may: bool) -> Moved
    ensures { result ≡ judged g held bus may }
{
    match g {
        Guarded::Reading => {
            let bus = state::to(bus, reading(bus.address, may));
            state::listen(held, bus, Deed::Nothing)
        }
        Guarded::Copying if copied(held, bus, may) => {
            let held = Held { aa: true, ..held };
            state::listen(held, state::to(bus, Stage::Copied), Deed::Store)
        }
        Guarded::Copying => state::listen(held, state::to(bus, Stage::Over), Deed::Nothing),
        Guarded::Controlling(control) => {
            let bus = state::to(bus, controlling(control, may));
            state::listen(held, bus, Deed::Nothing)
        }
    }
}

// Read Memory sends, or the password is wrong or the address too high.
#[tactic(auto, unfolding(crate::specs::Field::after_reading))]
fn reading(address: u16, may: bool) -> Stage
    ensures { result ≡ after_reading address may }
{
    if address < 0x3000 && may {
        Stage::Sends(Sending::Memory)
    } else {
        Stage::Over
    }
}

#[tactic(auto, unfolding(crate::specs::Field::after_controlling))]
fn controlling(control: Control, may: bool) -> Stage
    ensures { result ≡ after_controlling control may }
{
    if may {
        Stage::Hears(Hearing::Confirm(control))
    } else {
        Stage::Over
    }
}

// Whether a Copy is done.
#[tactic(auto, unfolding(crate::specs::Field::copies))]
fn copied(held: Held, bus: Bus, may: bool) -> bool
    ensures { result ≡ copies held bus may }
{
    same(held, bus) && filled(held) && may
}

// TA1, TA2 and E/S as sent are those held.
#[tactic(auto, unfolding(crate::specs::Field::as_held))]
fn same(held: Held, bus: Bus) -> bool
    ensures { result ≡ as_held held bus }
{
    bus.address == held.ta && bus.status == state::status_byte(held)
}

// Whole data to the page's end.
#[tactic(auto, unfolding(crate::specs::Field::to_the_end))]
fn filled(held: Held) -> bool
    ensures { result ≡ to_the_end held }
{
    held.ending == 0x1F && !held.pf
}
