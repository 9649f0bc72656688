// Numbers as the line carries them, low bit first: one bit of a number, a register that a bit is shifted into, and where two numbers part.
// Every function answers any input.
#![tactic(auto)]

ghost use Rattle.std.specs.Prelude.{◌≡◌, ℕ, ◌+◌, ◌-◌, ◌/◌, ◌%◌, ◌^◌, ◌<◌};
ghost use Rattle.bits.specs.Bits.{digit, bit_of, shift_in};
ghost use Rattle.bits.specs.Parting.{parting_of};

// A bit as a number.
pub fn digit(bit: bool) -> u8
    ensures { result ≡ digit bit }
{
    u8::from(bit)
}

// Bit `at` of `n`, counted from the low end; past the top a number has only zeros.
#[tactic(auto, unfolding(crate::specs::Bits::bit_of))]
pub fn bit(n: u64, at: u8) -> bool
    ensures { result ≡ bit_of n at }
{
    at < 64 && (n >> at) % 2 == 1
}

// A register that hears bits: a byte, or the 64 bits of a password field.
pub trait Register {
    // How many bits it has, and the number that they are.
    ghost width: { ℕ };

    ghost number: { Self → ℕ };

    // What it holds moves down by one bit.
    fn half(self) -> Self
        ensures moved { number result ≡ number self / 2 }
        ensures free { number result < 2 ^ (width - 1) };

    // Its top bit is 1, and the others are kept.
    fn topped(self) -> Self
        ensures { number result ≡ number self % 2 ^ (width - 1) + 2 ^ (width - 1) };

    // No two registers hold one number.
    ghost same: { (a b : Self) → number a ≡ number b → a ≡ b };
}

// An impl says only what differs between the two: the type, its width and its top bit.
impl Register for u8 {
    ghost width = { 8 };

    ghost number = { λ n. n };

    ghost same = { λ a b e. e };

    fn half(self) -> u8 {
        self / 2
    }

    fn topped(self) -> u8 {
        self % 128 + 128
    }
}

impl Register for u64 {
    ghost width = { 64 };

    ghost number = { λ n. n };

    ghost same = { λ a b e. e };

    fn half(self) -> u64 {
        self / 2
    }

    fn topped(self) -> u64 {
        self % (1 << 63) + (1 << 63)
    }
}

// A register with one more bit heard. The bit heard first ends lowest once as many have come as it has bits.
#[tactic(auto, unfolding(crate::specs::Bits::shift_in))]
pub fn shift_in<R: Register>(heard: R, bit: bool) -> R
    ensures { R.number result ≡ shift_in R.width (R.number heard) bit }
{
    let half = heard.half();
    if bit { half.topped() } else { half }
}

// The first bit where two numbers part, counted from the low end; 64 if they are equal.
#[tactic(auto, using(crate::specs::Parting::Laws::trailing_parting))]
pub fn parting(a: u64, b: u64) -> u32
    ensures { result ≡ parting_of 64 a b }
{
    (a ^ b).trailing_zeros()
}
