// Whether a reading alarms: divided by 8, it is held against each threshold whose alarm is enabled.
ghost use Rattle.std.specs.Prelude.{◌≡◌};
ghost use Rattle.conversion.specs.Conversion.{alarms, alarms_high, alarms_low};

use image::registers::{ETHA, ETLA, HIGH_THRESHOLD, LOW_THRESHOLD};

// Either alarm.
#[tactic(auto, unfolding(crate::specs::Conversion::alarms))]
pub fn alarms(image: &[u8], reading: u16) -> bool
    ensures { result ≡ alarms image.now reading }
{
    high(image, reading) || low(image, reading)
}

// At or above the high threshold. Not one function with `low`: enable, threshold and side differ, which is all there is in it.
#[tactic(auto, unfolding(crate::specs::Conversion::alarms_high, crate::specs::Conversion::is_high))]
pub(crate) fn high(image: &[u8], reading: u16) -> bool
    ensures { result ≡ alarms_high image.now reading }
{
    let threshold = image::peek(image, HIGH_THRESHOLD);
    image::flag(image, ETHA) && threshold as u16 <= reading / 8
}

// At or below the low threshold.
#[tactic(auto, unfolding(crate::specs::Conversion::alarms_low, crate::specs::Conversion::is_low))]
pub(crate) fn low(image: &[u8], reading: u16) -> bool
    ensures { result ≡ alarms_low image.now reading }
{
    let threshold = image::peek(image, LOW_THRESHOLD);
    image::flag(image, ETLA) && reading / 8 <= threshold as u16
}
