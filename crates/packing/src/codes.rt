// The enums of a record as numbers: a case by its place in the enum's declaration, from 0 on, and beside it two numbers for what it
// holds: one thing stands in the second, and 0 where there is nothing. Whatever the numbers are, they stand for some case.
ghost use Rattle.std.specs.Prelude.{◌≡◌, eqb};
ghost use Rattle.bits.specs.Bits.{digit};
ghost use Rattle.packing.specs.Codes.{coded_as, choosing_codes, choosing_of, mode_code, mode_of};
ghost use Rattle.packing.specs.Codes.Laws.{choosing_back, mode_back, flag_back};

use crate::Coded;
use select::{Choosing, Mode};

// A type whose values have numbers: one byte, or a case and two numbers beside it. A trait of this crate, since `From` between a type of
// another crate and `u8` is refused here (orphan-impl).
pub(crate) trait Numbered {
    type Number: Copy + PartialEq;

    ghost number_of: { Self → Self.Number };

    ghost value_of: { Self.Number → Self };

    fn number(self) -> Self::Number
        ensures { result ≡ number_of self };

    // Whatever the numbers are, they stand for some value.
    fn from_number(number: Self::Number) -> Self
        ensures { result ≡ value_of number };

    // A value's own stand for it.
    ghost back: { (x : Self) → value_of (number_of x) ≡ x };
}

// Whether numbers are some value's own: the value that they stand for has them again.
pub(crate) fn is_own<C: Numbered>(number: C::Number) -> bool
    ensures { result ≡ C.Number.eq (C.number_of (C.value_of number)) number }
{
    C::from_number(number).number() == number
}

pub(crate) fn coded(case: u8, first: u8, second: u8) -> Coded
    ensures { result ≡ coded_as case first second }
{
    Coded {
        case,
        first,
        second,
    }
}

impl Numbered for bool {
    type Number = u8;

    ghost number_of = { digit };

    ghost value_of = { λ n. eqb n 1 };

    ghost back = { flag_back };

    fn number(self) -> u8 {
        u8::from(self)
    }

    fn from_number(number: u8) -> bool {
        number == 1
    }
}

// ---- how a tag is chosen

impl Numbered for Choosing {
    type Number = Coded;

    ghost number_of = { choosing_codes };

    ghost value_of = { choosing_of };

    ghost back = { choosing_back };

    fn number(self) -> Coded {
        match self {
            Choosing::Silent => coded(0, 0, 0),
            Choosing::Command(heard, count) => coded(1, heard, count),
            Choosing::Reading(at) => coded(2, 0, at),
            Choosing::Matching(fast, at) => coded(3, u8::from(fast), at),
            Choosing::Giving(at) => coded(4, 0, at),
            Choosing::Complementing(at) => coded(5, 0, at),
            Choosing::Awaiting(at) => coded(6, 0, at),
            Choosing::Selected => coded(7, 0, 0),
        }
    }

    #[tactic(auto, unfolding(crate::specs::Codes::choosing_of))]
    fn from_number(number: Coded) -> Choosing {
        match number.case {
            1 => Choosing::Command(number.first, number.second),
            2 => Choosing::Reading(number.second),
            3 => Choosing::Matching(number.first == 1, number.second),
            4 => Choosing::Giving(number.second),
            5 => Choosing::Complementing(number.second),
            6 => Choosing::Awaiting(number.second),
            7 => Choosing::Selected,
            _ => Choosing::Silent,
        }
    }
}

impl Numbered for Mode {
    type Number = u8;

    ghost number_of = { mode_code };

    ghost value_of = { mode_of };

    ghost back = { mode_back };

    fn number(self) -> u8 {
        self as u8
    }

    #[tactic(auto, unfolding(crate::specs::Codes::mode_of))]
    fn from_number(number: u8) -> Mode {
        match number {
            1 => Mode::Marked,
            2 => Mode::Overdrive,
            3 => Mode::OverdriveMarked,
            _ => Mode::Plain,
        }
    }
}
