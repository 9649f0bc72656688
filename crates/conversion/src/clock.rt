// The clock's registers, and the stamp, which is stored in the same order.
ghost use Rattle.std.specs.Prelude.{◌≡◌};
ghost use Rattle.conversion.specs.Clock.{clock_of, put_clock, clocked};

use calendar::Clock;
use image::registers::{CLOCK, EOSC};

// The clock, one second on, if EOSC is 1. Most seconds step the first field alone, so its carry is tested before the others are
// looked at. Each branch reads and stores by itself: with one store behind both a tick counts 25 instructions more.
#[tactic(auto, using(calendar::proofs::Calendar::Laws::next_uncarried), unfolding(crate::specs::Clock::clocked, crate::specs::Clock::clock_of))]
pub fn advance(image: &mut [u8])
    ensures { image.new ≡ clocked image.old }
{
    if !image::flag(image, EOSC) {
        return;
    }
    let seconds = calendar::step_seconds(image::register(image, 0x00));
    if seconds.carry {
        let next = calendar::next(read(image));
        put(image, CLOCK, next);
    } else {
        let next = Clock {
            seconds: seconds.byte,
            ..read(image)
        };
        put(image, CLOCK, next);
    }
}

// The six registers, of which only named bits count.
#[tactic(auto, unfolding(crate::specs::Clock::clock_of))]
pub(crate) fn read(image: &[u8]) -> Clock
    ensures { result ≡ clock_of image.now }
{
    Clock {
        seconds: image::register(image, 0x00),
        minutes: image::register(image, 0x01),
        hours: image::register(image, 0x02),
        date: image::register(image, 0x03),
        month: image::register(image, 0x04),
        year: image::register(image, 0x05),
    }
}

// Stores a clock's six bytes: in the clock's registers, or as the stamp.
pub(crate) fn put(image: &mut [u8], at: usize, clock: Clock)
    ensures { image.new ≡ put_clock image.old at clock }
{
    let six = [
        clock.seconds,
        clock.minutes,
        clock.hours,
        clock.date,
        clock.month,
        clock.year,
    ];
    image::put_bytes(image, at, &six);
}
