// The clock's six BCD fields, one second on. A field at its last value, or not valid, returns to its lowest and carries to
// the next; a field is looked at only when it steps. The hours run in the form that their bit 6 gives. Every function answers any
// six bytes.
#![tactic(auto)]

ghost use Rattle.std.specs.Prelude.{true, false, ◌≡◌};
ghost use Rattle.calendar.specs.Calendar.{is_valid, step_along, twelve_hours, step_field, step_hours, step_month, is_leap, days_in, flipped, next_day, next_second};

// The registers 0200h-0205h. `month` holds CENT in bit 7 and the month in bits 4-0.
#[derive(Clone, Copy)]
pub struct Clock {
    pub seconds: u8,
    pub minutes: u8,
    pub hours: u8,
    pub date: u8,
    pub month: u8,
    pub year: u8,
}

// What a field becomes as it steps, and whether it carries to the next.
#[derive(Clone, Copy)]
pub struct Stepped {
    pub byte: u8,
    pub carry: bool,
}

// One second on. Most seconds step one field alone, so each field's carry is tested before the next is looked at.
#[tactic(auto, unfolding(crate::specs::Calendar::next_second, crate::specs::Calendar::carried))]
pub fn next(clock: Clock) -> Clock
    ensures { result ≡ next_second clock }
{
    let seconds = step_seconds(clock.seconds);
    let clock = Clock {
        seconds: seconds.byte,
        ..clock
    };
    if !seconds.carry {
        return clock;
    }
    let minutes = step(0x00, 0x59, clock.minutes);
    let clock = Clock {
        minutes: minutes.byte,
        ..clock
    };
    if !minutes.carry {
        return clock;
    }
    let hours = step_hours(clock.hours);
    let clock = Clock {
        hours: hours.byte,
        ..clock
    };
    if hours.carry { next_day(clock) } else { clock }
}

// One day on, by the month and the year that it ends in.
#[tactic(auto, unfolding(crate::specs::Calendar::next_day, crate::specs::Calendar::carried))]
fn next_day(clock: Clock) -> Clock
    ensures { result ≡ next_day clock }
{
    let date = step(0x01, days_in(clock.month % 32, clock.year), clock.date);
    let clock = Clock {
        date: date.byte,
        ..clock
    };
    if !date.carry {
        return clock;
    }
    let month = step_month(clock.month);
    let clock = Clock {
        month: month.byte,
        ..clock
    };
    if !month.carry {
        return clock;
    }
    let year = step(0x00, 0x99, clock.year);
    let month = if year.carry {
        flip(month.byte)
    } else {
        month.byte
    };
    Clock {
        month,
        year: year.byte,
        ..clock
    }
}

// The seconds, 60 a minute: the field that every second steps.
pub fn step_seconds(byte: u8) -> Stepped
    ensures { result ≡ step_field 0x00 0x59 byte }
{
    step(0x00, 0x59, byte)
}

// The hours, 24 a day, in the form that bit 6 gives.
#[tactic(auto, unfolding(crate::specs::Calendar::step_hours, crate::specs::Calendar::step_field))]
fn step_hours(byte: u8) -> Stepped
    ensures { result ≡ step_hours byte }
{
    if bits::bit(u64::from(byte), 6) {
        step_twelve(byte)
    } else {
        step(0x00, 0x23, byte)
    }
}

// The hours of the twelve-hour form, PM in bit 5, as they follow each other: 12, 1 to 11, and the same again with PM.
#[tactic(auto, unfolding(crate::specs::Calendar::step_along, crate::specs::Calendar::hour_after, crate::specs::Calendar::is_valid, crate::specs::Calendar::plus_one))]
fn step_twelve(byte: u8) -> Stepped
    ensures { result ≡ step_along twelve_hours byte }
{
    if byte == 0x71 || !valid_twelve(byte) {
        return Stepped {
            byte: 0x52,
            carry: true,
        };
    }
    let next = match byte {
        0x52 => 0x41,
        0x51 => 0x72,
        0x72 => 0x61,
        0x49 | 0x69 => byte + 7,
        _ => byte + 1,
    };
    Stepped {
        byte: next,
        carry: false,
    }
}

// From 1 AM to 12 AM, or from 1 PM to 12 PM, as their bytes stand.
fn valid_twelve(byte: u8) -> bool
    ensures { result ≡ twelve_hours.is_value byte }
{
    valid(0x41, 0x52, byte) || valid(0x61, 0x72, byte)
}

// The month's byte: CENT is kept as the month steps.
#[tactic(auto, using(crate::proofs::Calendar::Laws::step_le), unfolding(crate::specs::Calendar::step_month))]
fn step_month(byte: u8) -> Stepped
    ensures { result ≡ step_month byte }
{
    let month = step(0x01, 0x12, byte % 32);
    let cent = byte / 128 * 128;
    Stepped {
        byte: month.byte + cent,
        ..month
    }
}

// The month's byte with CENT, its bit 7, flipped.
#[tactic(auto, unfolding(crate::specs::Calendar::flipped))]
fn flip(byte: u8) -> u8
    ensures { result ≡ flipped byte }
{
    if byte < 128 { byte + 128 } else { byte - 128 }
}

// The month's last date, in BCD: 31 of an invalid month.
#[tactic(auto, unfolding(crate::specs::Calendar::days_in))]
fn days_in(month: u8, year: u8) -> u8
    ensures { result ≡ days_in month year }
{
    match month {
        0x02 => { if is_leap(year) { 0x29 } else { 0x28 } }
        0x04 | 0x06 | 0x09 | 0x11 => 0x30,
        _ => 0x31,
    }
}

// Whether February has 29 days; an invalid year has no leap day.
#[tactic(auto, unfolding(crate::specs::Calendar::is_leap, crate::specs::Calendar::decimal))]
fn is_leap(year: u8) -> bool
    ensures { result ≡ is_leap year }
{
    valid(0x00, 0x99, year) && (10 * (year / 16) + year % 16) % 4 == 0
}

// One field's step, between its lowest and its last value.
#[tactic(auto, using(crate::proofs::Calendar::Laws::valid_between), unfolding(crate::specs::Calendar::step_field, crate::specs::Calendar::step_along, crate::specs::Calendar::plus_one))]
fn step(lowest: u8, last: u8, byte: u8) -> Stepped
    ensures { result ≡ step_field lowest last byte }
{
    let carry = byte == last || !valid(lowest, last, byte);
    let next = if carry {
        lowest
    } else if byte % 16 == 9 {
        byte + 7
    } else {
        byte + 1
    };
    Stepped { byte: next, carry }
}

// Two digits up to 9, and neither below the lowest nor past the last.
#[tactic(auto, unfolding(crate::specs::Calendar::is_valid))]
fn valid(lowest: u8, last: u8, byte: u8) -> bool
    ensures { result ≡ is_valid lowest last byte }
{
    byte / 16 <= 9 && byte % 16 <= 9 && lowest <= byte && byte <= last
}
