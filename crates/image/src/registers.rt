// The registers by the sheet's names, and the flags in them. A register's place in the image is its address.
use crate::Bit;

// Six bytes: seconds, minutes, hours, date, month with CENT, year.
pub const CLOCK: usize = 0x0200;

// Two bytes, of which 14 bits are named.
pub const RATE: usize = 0x0206;

pub const LOW_THRESHOLD: usize = 0x0208;

pub const HIGH_THRESHOLD: usize = 0x0209;

// Two bytes: the reading times 32.
pub const LATEST: usize = 0x020C;

pub const ETLA: Bit = Bit(0x0210, 0);

pub const ETHA: Bit = Bit(0x0210, 1);

pub const EOSC: Bit = Bit(0x0212, 0);

pub const EHSS: Bit = Bit(0x0212, 1);

pub const ETL: Bit = Bit(0x0213, 0);

pub const TLFS: Bit = Bit(0x0213, 2);

pub const RO: Bit = Bit(0x0213, 4);

pub const SUTA: Bit = Bit(0x0213, 5);

pub const TLF: Bit = Bit(0x0214, 0);

pub const THF: Bit = Bit(0x0214, 1);

pub const BOR: Bit = Bit(0x0214, 7);

pub const MIP: Bit = Bit(0x0215, 1);

pub const MEMCLR: Bit = Bit(0x0215, 3);

pub const WFTA: Bit = Bit(0x0215, 4);

// Three bytes.
pub const DELAY: usize = 0x0216;

// Six bytes.
pub const STAMP: usize = 0x0219;

// Three bytes.
pub const MISSION_SAMPLES: usize = 0x0220;

// Three bytes.
pub const DEVICE_SAMPLES: usize = 0x0223;

pub const PASSWORD_CONTROL: usize = 0x0227;

// Eight bytes, low byte first, as the line carries them.
pub const READ_PASSWORD: usize = 0x0228;

pub const FULL_PASSWORD: usize = 0x0230;
