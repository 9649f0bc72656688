// The ranges of scratchpad, TA, E/S and bus state, by the definitions of specs/Range.antt: a record outside of them is none that
// a new tag leads to.
ghost use Rattle.std.specs.Prelude.{◌≡◌};
ghost use Rattle.memory.specs.Range.{from_offset, hearing_in_range, guarded_in_range, crc_in_range, sending_in_range, stage_in_range};

use bus::{Bus, Control, Guarded, Hearing, Held, Next, Sending, Stage};

// The stage and how many bits are past.
#[tactic(auto, unfolding(crate::specs::Range::stage_in_range))]
pub(crate) fn stage_in_range(held: Held, bus: Bus) -> bool
    ensures { result ≡ stage_in_range bus.stage held bus }
{
    match bus.stage {
        Stage::Over => bus.at == 0,
        Stage::Hears(h) => bus.at < 8 && hearing_in_range(h, held),
        Stage::Gathers(g) => bus.at < 64 && guarded_in_range(g),
        Stage::Sends(s) => bus.at < 8 && sending_in_range(s, held, bus),
        Stage::Copied => bus.at < 2,
    }
}

// A place of the scratchpad from TA's offset to 1Fh.
#[tactic(auto, unfolding(crate::specs::Range::from_offset))]
pub(crate) fn from_offset(held: Held, place: u8) -> bool
    ensures { result ≡ from_offset held place }
{
    (held.ta % 32) as u8 <= place && place < 32
}

#[tactic(auto, unfolding(crate::specs::Range::hearing_in_range))]
fn hearing_in_range(h: Hearing, held: Held) -> bool
    ensures { result ≡ hearing_in_range h held }
{
    match h {
        Hearing::Data(place) => from_offset(held, place),
        _ => true,
    }
}

// A Forced Conversion takes no password.
#[tactic(auto, unfolding(crate::specs::Range::guarded_in_range, field::specs::Field::guarded))]
fn guarded_in_range(g: Guarded) -> bool
    ensures { result ≡ guarded_in_range g }
{
    !matches!(g, Guarded::Controlling(Control::Convert))
}

#[tactic(auto, unfolding(crate::specs::Range::sending_in_range))]
fn sending_in_range(s: Sending, held: Held, bus: Bus) -> bool
    ensures { result ≡ sending_in_range s held bus }
{
    match s {
        Sending::PadLow | Sending::PadHigh | Sending::PadStatus => true,
        Sending::PadData(place) => from_offset(held, place),
        Sending::Memory => bus.address < 0x3000,
        Sending::CrcLow(next) | Sending::CrcHigh(next) => crc_in_range(next, bus.address),
    }
}

// Read Memory's CRC-16 follows a page's last byte.
#[tactic(auto, unfolding(crate::specs::Range::crc_in_range))]
fn crc_in_range(next: Next, address: u16) -> bool
    ensures { result ≡ crc_in_range next address }
{
    match next {
        Next::Nothing => true,
        Next::Page => address < 0x3000 && address % 32 == 31,
    }
}
