// The registers in a dump's memory by the sheet's names, each at its address.
ghost use Rattle.std.specs.Prelude.{◌≡◌};
ghost use Rattle.bits.specs.Bits.{bit_of};
ghost use Rattle.dump.specs.Lines.{memory_at};
ghost use Rattle.dock.specs.Registers.{rate, stamp, mission_samples, code};

// One bit of a register: the register's address, and which of its eight bits it is, 0 the lowest. No `image::Bit`, which has a slice's place:
// a dump's bytes are asked for by their addresses.
#[derive(Clone, Copy)]
pub(crate) struct Bit(u16, u8);

pub(crate) const EHSS: Bit = Bit(0x0212, 1);

pub(crate) const ETL: Bit = Bit(0x0213, 0);

pub(crate) const TLFS: Bit = Bit(0x0213, 2);

pub(crate) const RO: Bit = Bit(0x0213, 4);

pub(crate) const SUTA: Bit = Bit(0x0213, 5);

pub(crate) const TLF: Bit = Bit(0x0214, 0);

pub(crate) const THF: Bit = Bit(0x0214, 1);

pub(crate) const MEMCLR: Bit = Bit(0x0215, 3);

// Whether a bit is 1.
pub(crate) fn flag(memory: &[u8], bit: Bit) -> bool
    ensures { result ≡ bit_of (memory_at memory.now bit.0) bit.1 }
{
    bits::bit(dump::byte_at(memory, bit.0) as u64, bit.1)
}

// All sixteen bits.
#[tactic(auto, unfolding(crate::specs::Registers::word_at))]
pub(crate) fn rate(memory: &[u8]) -> u16
    ensures { result ≡ rate (memory_at memory.now) }
{
    u16::from_le_bytes([dump::byte_at(memory, 0x0206), dump::byte_at(memory, 0x0207)])
}

// Each by the sheet's name, which says more than a run of six.
#[tactic(auto, unfolding(dump::specs::Lines::bytes_from))]
pub(crate) fn stamp(memory: &[u8]) -> [u8; 6]
    ensures { result ≡ stamp (memory_at memory.now) }
{
    let seconds = dump::byte_at(memory, 0x0219);
    let minutes = dump::byte_at(memory, 0x021A);
    let hours = dump::byte_at(memory, 0x021B);
    let date = dump::byte_at(memory, 0x021C);
    let month = dump::byte_at(memory, 0x021D);
    let year = dump::byte_at(memory, 0x021E);
    [seconds, minutes, hours, date, month, year]
}

#[tactic(auto, unfolding(crate::specs::Registers::word_at))]
pub(crate) fn mission_samples(memory: &[u8]) -> u32
    ensures { result ≡ mission_samples (memory_at memory.now) }
{
    let low = dump::byte_at(memory, 0x0220);
    let middle = dump::byte_at(memory, 0x0221);
    let high = dump::byte_at(memory, 0x0222);
    u32::from_le_bytes([low, middle, high, 0])
}

pub(crate) fn code(memory: &[u8]) -> u8
    ensures { result ≡ code (memory_at memory.now) }
{
    dump::byte_at(memory, 0x0226)
}
