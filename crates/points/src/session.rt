// A session as text, part by part, and the calls that a part asks for. Numbers are hexadecimal. Spaces between parts count for
// nothing; a part's own characters stand together.
//   :           a point begins, with a new tag; its name is the rest of the line
//   #           the rest of the line is a comment
//   R           a reset, which the tag answers
//   O N         a short reset, which the tag answers at overdrive, and which is nothing at standard speed
//   HH          a byte is sent
//   =HH         a byte is read, and is this one
//   XHH         right behind a byte: there are HH of it in all
//   + -         a slot with the line released, held low; the tag sends no 0
//   ?D          a slot with the line released, which reads this bit
//   TRRRRCCCC   CCCC ticks with the reading RRRR
//   !CCRRRRNN   an event of code CC and reading RRRR, which is answered with NN; in a slot the tag sends no 0
//   LWWRRNNDD HHHH.. = HH..
//               a list of the WW words HHHH.. in one call, with RR reply bytes lent that hold 77h: it is answered with NN, DD words
//               are done, and the reply bytes are HH.. then; the rest of the line is the list's
//   I ..        the same with an image of one byte less
//   Z           the record becomes that of all zeros
//   S           the image is remembered
//   K           the image is as remembered but for the clock
use hexadecimal::nibble;
use image::peek;

// How a character is read.
#[derive(Clone, Copy, PartialEq, Eq)]
pub enum Reads {
    // As the first of a part.
    Part,
    // As another one of it, behind which so many are left.
    Rest(u8),
    // As one of a name.
    Name,
    // As one of a line that is passed over.
    Line,
}

// Events that are alike but for their line bits, which are those of `bits`, low bit first, again and again. Code 0 sends them.
#[derive(Drop)]
pub struct Calls {
    pub code: u8,
    pub reading: u16,
    pub bits: u8,
    // The number of each one's answer, as the text has it: any, also one that is none.
    pub number: u8,
    pub count: u16,
}

// How the character behind the text's first one is read.
pub(crate) fn after(reads: Reads, text: &[u8]) -> Reads {
    let c = peek(text, 0);
    if c == b'\n' {
        return Reads::Part;
    }
    match reads {
        Reads::Part => begun(c, text),
        Reads::Rest(0) => Reads::Part,
        Reads::Rest(left) => Reads::Rest(left.saturating_sub(1)),
        Reads::Name => Reads::Name,
        Reads::Line => Reads::Line,
    }
}

// The same behind a part's first character.
fn begun(c: u8, text: &[u8]) -> Reads {
    match c {
        b':' => Reads::Name,
        b'#' | b'L' | b'I' => Reads::Line,
        b'T' | b'!' => Reads::Rest(7),
        b'=' => to_end(text, 2),
        b'?' => Reads::Rest(0),
        b'0'..=b'9' | b'A'..=b'F' => to_end(text, 1),
        _ => Reads::Part,
    }
}

// A byte has so many characters behind its first one: its digits, and an X with its own.
fn to_end(text: &[u8], digits: u8) -> Reads {
    if peek(text, usize::from(digits) + 1) == b'X' {
        Reads::Rest(digits % 8 + 2)
    } else {
        Reads::Rest(digits.saturating_sub(1))
    }
}

// The calls of the part that the text begins with, if no digit is missing.
pub(crate) fn calls_at(text: &[u8]) -> Option<Calls> {
    match peek(text, 0) {
        b'R' => Some(alike(2, 0, 1)),
        b'O' => Some(alike(4, 0, 1)),
        b'N' => Some(alike(4, 1, 1)),
        b'=' => Some(alike(1, number(text, 1, 2)?, slots(text, 3)?)),
        b'+' => Some(alike(1, 1, 1)),
        b'-' => Some(alike(0, 0, 1)),
        b'?' => Some(alike(1, number(text, 1, 1)?, 1)),
        b'T' => {
            let n = number(text, 1, 8)?;
            let reading = (n / 0x10000) as u16;
            let count = (n % 0x10000) as u16;
            Some(Calls {
                reading,
                ..alike(3, 0xFF, count)
            })
        }
        b'!' => {
            let n = number(text, 1, 8)?;
            let code = (n / 0x1000000) as u8;
            Some(Calls {
                reading: (n / 0x100 % 0x10000) as u16,
                number: (n % 0x100) as u8,
                ..alike(code, u32::from(code % 2), 1)
            })
        }
        _ => Some(alike(0, number(text, 0, 2)?, slots(text, 2)?)),
    }
}

// Accepted calls with the reading 0.
fn alike(code: u8, bits: u32, count: u16) -> Calls {
    Calls {
        code,
        reading: 0,
        bits: (bits % 0x100) as u8,
        number: 0,
        count,
    }
}

// The slots of a byte whose digits end before `at`: eight, or eight times the number of an X there.
fn slots(text: &[u8], at: usize) -> Option<u16> {
    if peek(text, at) != b'X' {
        return Some(8);
    }
    let bytes = number(text, at.saturating_add(1), 2)?;
    Some(8 * (bytes % 0x100) as u16)
}

// The number that the digits at `at` are, eight at most, if none is missing. By place, as `peek` takes one: the text may end before.
pub(crate) fn number(text: &[u8], at: usize, digits: usize) -> Option<u32> {
    for i in 0..digits {
        nibble(peek(text, at.saturating_add(i)))?;
    }
    Some(value(text, at, digits))
}

// The same with each missing one as 0.
pub(crate) fn value(text: &[u8], at: usize, digits: usize) -> u32 {
    let mut value = 0;
    for i in 0..digits {
        let digit = nibble(peek(text, at.saturating_add(i))).unwrap_or(0);
        value = value % 0x10000000 * 16 + u32::from(digit % 16);
    }
    value
}
