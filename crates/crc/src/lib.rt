// CRC-8 and CRC-16 of the 1-Wire line, low bit first: one step for both, over the polynomial. CRC-16 goes by half-bytes, from tables
// (`halves`). CRC-8 goes bit by bit: with its polynomial a constant in the loop, the compiler makes a table of it. Every function answers
// any input.
#![tactic(auto)]

ghost use Rattle.std.specs.Prelude.{[], ◌∷◌, ◌≡◌};
ghost use Rattle.crc.specs.Crc.{crc16_bit, crc16_byte, crc16_run, sent_low, sent_high, crc8_of, good_crc, crc_bit, crc_byte};

mod halves;

// x^16+x^15+x^2+1 as a register's bits: low bit first, so the term 1 is its top bit, and x^16 is left out.
const CRC16: u16 = 0xA001;

// x^8+x^5+x^4+1 likewise, in the low 8 bits, in which the register then stays.
const CRC8: u16 = 0x8C;

// The register of the CRC with this polynomial, with one more bit.
fn crc_bit<const MASK: u16>(crc: u16, bit: bool) -> u16
    ensures { result ≡ crc_bit MASK crc bit }
{
    if (crc ^ u16::from(bit)) % 2 == 1 {
        MASK ^ (crc / 2)
    } else {
        crc / 2
    }
}

// The same with one more byte, low bit first: it is added to the register, and eight zeros come in.
#[tactic(auto, using(crate::specs::Crc::Laws::byte_ends, crate::specs::Crc::Linear::byte_zeros))]
fn crc_byte<const MASK: u16>(crc: u16, byte: u8) -> u16
    ensures { result ≡ crc_byte MASK crc byte }
{
    let mut r = crc ^ u16::from(byte);
    for _ in 0..8u8 {
        r = crc_bit::<MASK>(r, false);
    }
    r
}

// The CRC-16 register with one more bit.
#[tactic(auto, unfolding(crate::specs::Crc::mask16, crate::specs::Crc::taps))]
pub fn crc16_bit(crc: u16, bit: bool) -> u16
    ensures { result ≡ crc16_bit crc bit }
{
    crc_bit::<CRC16>(crc, bit)
}

// The CRC-16 register with one more byte, low bit first.
#[tactic(auto, using(crate::proofs::Crc::Halves::byte_tabled_lem))]
pub fn crc16_byte(crc: u16, byte: u8) -> u16
    ensures { result ≡ crc16_byte crc byte }
{
    let [low, high] = crc.to_le_bytes();
    halves::near(low ^ byte) ^ u16::from(high)
}

// The CRC-16 register with all of these bytes, first to last: four at a time, and those that are left.
#[tactic(auto, using(crate::specs::Crc::Laws::run_more, crate::specs::Crc::Laws::run_none))]
pub fn crc16_run(crc: u16, bytes: &[u8]) -> u16
    ensures { result ≡ crc16_run crc bytes.now }
{
    let (fours, rest) = bytes.as_chunks::<4>();
    let mut r = crc;
    for &[a, b, c, d] in fours {
        r = crc16_four(r, a, b, c, d);
    }
    for &byte in rest {
        r = crc16_byte(r, byte);
    }
    r
}

// The CRC-16 register with four more bytes. The two that meet the register come last: they alone wait for the four before.
#[tactic(auto, using(crate::proofs::Crc::Halves::four_tabled))]
fn crc16_four(crc: u16, a: u8, b: u8, c: u8, d: u8) -> u16
    ensures { result ≡ crc16_run crc (a ∷ b ∷ c ∷ d ∷ []) }
{
    let [low, high] = crc.to_le_bytes();
    halves::far(0, c) ^ halves::near(d) ^ halves::far(2, high ^ b) ^ halves::far(4, low ^ a)
}

// The first of the two bytes that are sent: the low one, inverted. Two functions: docs/PROMISES.md names both.
#[tactic(auto, unfolding(crate::specs::Crc::sent_low))]
pub fn sent_low(crc: u16) -> u8
    ensures { result ≡ sent_low crc }
{
    let [low, _] = crc.to_le_bytes();
    !low
}

// The second of the two bytes that are sent: the high one, inverted.
#[tactic(auto, unfolding(crate::specs::Crc::sent_high))]
pub fn sent_high(crc: u16) -> u8
    ensures { result ≡ sent_high crc }
{
    let [_, high] = crc.to_le_bytes();
    !high
}

// CRC-8 of the low seven bytes of a registration number.
#[tactic(auto, using(crate::specs::Crc::Laws::run_more, crate::specs::Crc::Laws::run_none))]
pub fn crc8(number: u64) -> u8
    ensures { result ≡ crc8_of number }
{
    let mut r = 0;
    for &byte in &number.to_le_bytes()[..7] {
        r = crc_byte::<CRC8>(r, byte);
    }
    r as u8
}

// Is the eighth byte of a registration number the CRC-8 of the seven below?
#[tactic(auto, unfolding(crate::specs::Crc::good_crc))]
pub fn good_crc(number: u64) -> bool
    ensures { result ≡ good_crc number }
{
    u64::from(crc8(number)) == number >> 56
}
