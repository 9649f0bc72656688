// One conversion of a mission: it is counted, stored, held against the thresholds and logged. Beside it the clock, which sets the
// stamp. Every function answers an image of any length and bytes, and any reading.
#![tactic(auto)]

ghost use Rattle.std.specs.Prelude.{◌≡◌};
ghost use Rattle.conversion.specs.Conversion.{converted, taken, device_counted, latest_stored, resolved, thf_set, tlf_set, ended};

pub mod alarm;
pub mod clock;
mod log;

use image::registers::{DEVICE_SAMPLES, LATEST, MISSION_SAMPLES, RO, THF, TLF, TLFS};

// At a conversion time: nothing at all once the mission's conversions have ended.
#[tactic(auto, unfolding(crate::specs::Conversion::converted, crate::specs::Conversion::measured))]
pub fn make(image: &mut [u8], reading: u16)
    ensures { image.new ≡ converted image.old reading }
{
    if ended(image) {
        return;
    }
    let result = taken(image, reading);
    count_device(image);
    store_latest(image, result);
    set_flags(image, result);
    log::record_reading(image, result);
}

// While it waits for an alarm, the tag converts to 8 bits only.
#[tactic(auto, unfolding(crate::specs::Conversion::taken))]
fn taken(image: &[u8], reading: u16) -> u16
    ensures { result ≡ taken image.now reading }
{
    if log::waiting(image) {
        reading / 8 * 8
    } else {
        reading
    }
}

// The log is full and may not roll over, or no more samples can be counted.
#[tactic(auto, unfolding(crate::specs::Conversion::ended))]
fn ended(image: &[u8]) -> bool
    ensures { result ≡ ended image.now }
{
    log::samples(image, MISSION_SAMPLES) == 0xFFFFFF
        || !image::flag(image, RO) && log::places(image) <= log::next_entry(image)
}

// One more device sample; the count stays at FFFFFFh.
#[tactic(auto, unfolding(crate::specs::Conversion::device_counted))]
pub fn count_device(image: &mut [u8])
    ensures { image.new ≡ device_counted image.old }
{
    let n = log::samples(image, DEVICE_SAMPLES);
    if n < 0xFFFFFF {
        image::put_word(image, DEVICE_SAMPLES, 3, n as u64 + 1);
    }
}

// The latest reading, its low bits in the upper part of the first byte.
#[tactic(auto, unfolding(crate::specs::Conversion::latest_stored))]
fn store_latest(image: &mut [u8], reading: u16)
    ensures { image.new ≡ latest_stored image.old reading }
{
    let kept = resolved(image, reading);
    image::put_word(image, LATEST, 2, kept as u64 * 32);
}

// A reading as the log's format keeps it.
#[tactic(auto, unfolding(crate::specs::Conversion::resolved))]
fn resolved(image: &[u8], reading: u16) -> u16
    ensures { result ≡ resolved image.now reading }
{
    if image::flag(image, TLFS) {
        reading
    } else {
        reading / 8 * 8
    }
}

// THF and TLF, which stay 1 until Clear.
#[tactic(auto, unfolding(crate::specs::Conversion::thf_set, crate::specs::Conversion::tlf_set))]
fn set_flags(image: &mut [u8], reading: u16)
    ensures { image.new ≡ tlf_set (thf_set image.old reading) reading }
{
    if alarm::high(image, reading) {
        image::put_flag(image, THF, true);
    }
    if alarm::low(image, reading) {
        image::put_flag(image, TLF, true);
    }
}
