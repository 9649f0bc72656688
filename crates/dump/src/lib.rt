// A dump as text: which of its lines are refused and why, and its data bytes, read as the lines are judged.
// Every function answers any slice and any number.
#![tactic(auto)]

ghost use Rattle.std.specs.Prelude.{◌≡◌};
ghost use Rattle.dump.specs.Check.{crc_right, read_text, read_of};
ghost use Rattle.dump.specs.Lines.{page_of, page_in, crc_in, data_in, memory_at};

use answer::Refusal;
use hexadecimal::Pair;

// The characters of a line: 36 bytes as two digits each, and the line feed.
const LINE: usize = 73;

// The lines of a dump, and its length.
const LINES: usize = 258;

const LENGTH: usize = 18834;

// The data bytes of a line, and of all lines.
const DATA: usize = 32;

pub const MEMORY: usize = 8256;

// The dump's data bytes, or the refusal: 7 for the length, then the first bad line's 7, 9 or 8.
pub fn read(dump: &[u8]) -> Result<[u8; MEMORY], Refusal>
    ensures { result ≡ read_of dump.now }
{
    if dump.len() != LENGTH {
        return Err(Refusal::DumpForm);
    }
    let mut memory = [0u8; MEMORY];
    // By number, since it gives a line's text, its page and its data's place.
    for line in 0..LINES {
        let start = LINE * line;
        let data = read_text(&dump[start..start + LINE], page_of(line))?;
        image::put_bytes(&mut memory, DATA * line, &data);
    }
    Ok(memory)
}

// The data bytes of one line's text, whose place asks this page, or the refusal: 7, then 9, then 8. Its digits are read once.
fn read_text(text: &[u8], page: u16) -> Result<[u8; DATA], Refusal>
    ensures { result ≡ read_text text.now page }
{
    if text.len() != LINE {
        return Err(Refusal::DumpForm);
    }
    let mut bytes = [0u8; 36];
    for (i, place) in bytes.iter_mut().enumerate() {
        let Pair::Byte(byte) = hexadecimal::pair_at(text, 2 * i) else {
            return Err(Refusal::DumpForm);
        };
        *place = byte;
    }
    if text[72] != b'\n' {
        Err(Refusal::DumpForm)
    } else if page_in(bytes) != page {
        Err(Refusal::LinePage)
    } else if !crc_right(bytes) {
        Err(Refusal::LineCrc)
    } else {
        Ok(data_in(bytes))
    }
}

// Whether a line's last two bytes are those that Read Memory sends of the CRC.
#[tactic(auto, unfolding(crate::specs::Check::crc_right))]
fn crc_right(bytes: [u8; 36]) -> bool
    ensures { result ≡ crc_right bytes }
{
    let crc = crc_in(bytes);
    bytes[34] == crc::sent_low(crc) && bytes[35] == crc::sent_high(crc)
}

// The data bytes of a line. Stored as `read` stores them: a pattern for the middle of an array gets no proof.
#[tactic(auto, using(bits::specs::Stores::sets_whole), unfolding(crate::specs::Lines::data_in))]
fn data_in(bytes: [u8; 36]) -> [u8; DATA]
    ensures { result ≡ data_in bytes }
{
    let mut data = [0u8; DATA];
    image::put_bytes(&mut data, 0, &bytes[2..34]);
    data
}

// The page that a line shows, high byte first.
#[tactic(auto, unfolding(crate::specs::Lines::page_in))]
fn page_in(bytes: [u8; 36]) -> u16
    ensures { result ≡ page_in bytes }
{
    u16::from_be_bytes([bytes[0], bytes[1]])
}

// The CRC-16 that Read Memory takes of a line's page and data: over the command, the address low byte first, and the data.
#[tactic(auto, using(crc::specs::Crc::Laws::run_cons), unfolding(crate::specs::Lines::crc_in, crate::specs::Lines::page_crc, crate::specs::Lines::data_in))]
fn crc_in(bytes: [u8; 36]) -> u16
    ensures { result ≡ crc_in bytes }
{
    let command = crc::crc16_byte(0, 0x69);
    let address = crc::crc16_byte(crc::crc16_byte(command, bytes[1]), bytes[0]);
    crc::crc16_run(address, &bytes[2..34])
}

// The page that a line's place asks; 0 past the last line.
#[tactic(auto, unfolding(crate::specs::Lines::page_of))]
pub fn page_of(line: usize) -> u16
    ensures { result ≡ page_of line }
{
    if line < 2 {
        0x0200 + 32 * line as u16
    } else if line < LINES {
        0x1000 + 32 * (line - 2) as u16
    } else {
        0
    }
}

// The byte that a dump's memory has for an address in 0200h-023Fh or 1000h-2FFFh; 0 for any other.
#[tactic(auto, unfolding(crate::specs::Lines::memory_at))]
pub fn byte_at(memory: &[u8], address: u16) -> u8
    ensures { result ≡ memory_at memory.now address }
{
    match address {
        0x0200..=0x023F => image::peek(memory, (address - 0x0200) as usize),
        0x1000..=0x2FFF => image::peek(memory, 64 + (address - 0x1000) as usize),
        _ => 0,
    }
}
