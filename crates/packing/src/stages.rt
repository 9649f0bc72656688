// Where a memory command stands, as numbers: its stage, the case in it and what that holds, as `codes` has it of every enum.
ghost use Rattle.std.specs.Prelude.{◌≡◌};
ghost use Rattle.packing.specs.Codes.{hearing_codes, guarded_codes, sending_codes, stage_codes, hearing_of, guarded_of, sending_of, stage_of, addressed_code, addressed_of, control_code, control_of, next_code, next_of};
ghost use Rattle.packing.specs.Codes.Laws.{addressed_back, control_back, next_back, hearing_back, guarded_back, sending_back, stage_back};

use crate::Coded;
use crate::codes::{Numbered, coded};
use bus::{Addressed, Control, Guarded, Hearing, Next, Sending, Stage};

impl Numbered for Stage {
    type Number = Coded;

    ghost number_of = { stage_codes };

    ghost value_of = { stage_of };

    ghost back = { stage_back };

    fn number(self) -> Coded {
        match self {
            Stage::Over => coded(0, 0, 0),
            Stage::Hears(hearing) => hearing.number(),
            Stage::Gathers(guarded) => guarded.number(),
            Stage::Sends(sending) => sending.number(),
            Stage::Copied => coded(4, 0, 0),
        }
    }

    #[tactic(auto, unfolding(crate::specs::Codes::stage_of))]
    fn from_number(number: Coded) -> Stage {
        match number.case {
            1 => Stage::Hears(Hearing::from_number(number)),
            2 => Stage::Gathers(Guarded::from_number(number)),
            3 => Stage::Sends(Sending::from_number(number)),
            4 => Stage::Copied,
            _ => Stage::Over,
        }
    }
}

impl Numbered for Hearing {
    type Number = Coded;

    ghost number_of = { hearing_codes };

    ghost value_of = { λ codes. hearing_of codes.first codes.second };

    ghost back = { hearing_back };

    fn number(self) -> Coded {
        match self {
            Hearing::Command => coded(1, 0, 0),
            Hearing::Low(addressed) => coded(1, 1, addressed.number()),
            Hearing::High(addressed) => coded(1, 2, addressed.number()),
            Hearing::Data(place) => coded(1, 3, place),
            Hearing::Status => coded(1, 4, 0),
            Hearing::Confirm(control) => coded(1, 5, control.number()),
        }
    }

    #[tactic(auto, unfolding(crate::specs::Codes::hearing_of))]
    fn from_number(number: Coded) -> Hearing {
        match number.first {
            1 => Hearing::Low(Addressed::from_number(number.second)),
            2 => Hearing::High(Addressed::from_number(number.second)),
            3 => Hearing::Data(number.second),
            4 => Hearing::Status,
            5 => Hearing::Confirm(Control::from_number(number.second)),
            _ => Hearing::Command,
        }
    }
}

impl Numbered for Guarded {
    type Number = Coded;

    ghost number_of = { guarded_codes };

    ghost value_of = { λ codes. guarded_of codes.first codes.second };

    ghost back = { guarded_back };

    fn number(self) -> Coded {
        match self {
            Guarded::Reading => coded(2, 0, 0),
            Guarded::Copying => coded(2, 1, 0),
            Guarded::Controlling(control) => coded(2, 2, control.number()),
        }
    }

    #[tactic(auto, unfolding(crate::specs::Codes::guarded_of))]
    fn from_number(number: Coded) -> Guarded {
        match number.first {
            1 => Guarded::Copying,
            2 => Guarded::Controlling(Control::from_number(number.second)),
            _ => Guarded::Reading,
        }
    }
}

impl Numbered for Sending {
    type Number = Coded;

    ghost number_of = { sending_codes };

    ghost value_of = { λ codes. sending_of codes.first codes.second };

    ghost back = { sending_back };

    fn number(self) -> Coded {
        match self {
            Sending::PadLow => coded(3, 0, 0),
            Sending::PadHigh => coded(3, 1, 0),
            Sending::PadStatus => coded(3, 2, 0),
            Sending::PadData(place) => coded(3, 3, place),
            Sending::Memory => coded(3, 4, 0),
            Sending::CrcLow(next) => coded(3, 5, next.number()),
            Sending::CrcHigh(next) => coded(3, 6, next.number()),
        }
    }

    #[tactic(auto, unfolding(crate::specs::Codes::sending_of))]
    fn from_number(number: Coded) -> Sending {
        match number.first {
            1 => Sending::PadHigh,
            2 => Sending::PadStatus,
            3 => Sending::PadData(number.second),
            4 => Sending::Memory,
            5 => Sending::CrcLow(Next::from_number(number.second)),
            6 => Sending::CrcHigh(Next::from_number(number.second)),
            _ => Sending::PadLow,
        }
    }
}

// ---- what those hold

impl Numbered for Addressed {
    type Number = u8;

    ghost number_of = { addressed_code };

    ghost value_of = { addressed_of };

    ghost back = { addressed_back };

    fn number(self) -> u8 {
        self as u8
    }

    #[tactic(auto, unfolding(crate::specs::Codes::addressed_of))]
    fn from_number(number: u8) -> Addressed {
        match number {
            1 => Addressed::Copy,
            2 => Addressed::Read,
            _ => Addressed::Write,
        }
    }
}

impl Numbered for Control {
    type Number = u8;

    ghost number_of = { control_code };

    ghost value_of = { control_of };

    ghost back = { control_back };

    fn number(self) -> u8 {
        self as u8
    }

    #[tactic(auto, unfolding(crate::specs::Codes::control_of))]
    fn from_number(number: u8) -> Control {
        match number {
            1 => Control::Start,
            2 => Control::Stop,
            3 => Control::Convert,
            _ => Control::Clear,
        }
    }
}

impl Numbered for Next {
    type Number = u8;

    ghost number_of = { next_code };

    ghost value_of = { next_of };

    ghost back = { next_back };

    fn number(self) -> u8 {
        self as u8
    }

    #[tactic(auto, unfolding(crate::specs::Codes::next_of))]
    fn from_number(number: u8) -> Next {
        match number {
            1 => Next::Page,
            _ => Next::Nothing,
        }
    }
}
