// The master's side of the line, over a tag. The tag and its image go side by side, as every call of `tag` takes them.
use crate::session::Calls;
use crate::{kept, lists, session};
use image::peek;
use record::Tag;

// A new tag, the one that source document 000 shows on its first page, as an L. Whether it is made.
pub(crate) fn begin(tag: &mut Tag, image: &mut [u8]) -> bool {
    let made = tag::new(image, 0xA1000000FBC52B41, 0x40);
    *tag = made.tag;
    made.answer.is_ok()
}

// Does what the part says that the text begins with, if it begins with one, and says whether all came as expected.
pub(crate) fn perform(tag: &mut Tag, image: &mut [u8], store: &mut [u8], text: &[u8]) -> bool {
    match peek(text, 0) {
        b' ' | b'\n' | b'#' => true,
        b':' => begin(tag, image),
        b'L' | b'I' => lists::play(tag, image, text),
        b'S' => {
            kept::keep(image, store);
            true
        }
        b'K' => kept::is_kept(image, store),
        b'Z' => {
            *tag = record::fresh(0, 0);
            true
        }
        _ => match session::calls_at(text) {
            Some(calls) => events(tag, image, calls),
            None => false,
        },
    }
}

// Gives the tag event after event. Each must be answered so, and leave its bit on the line; a refusal leaves 1.
fn events(tag: &mut Tag, image: &mut [u8], calls: Calls) -> bool {
    let mut right = true;
    for i in 0..calls.count {
        let bit = bits::bit(u64::from(calls.bits), (i % 8) as u8);
        let answered = tag::event(image, *tag, code(calls.code, bit), calls.reading);
        *tag = answered.tag;
        right = right
            & (answer::number(answered.answer) == calls.number)
            & (answered.line == (bit | (calls.number > 0)));
    }
    right
}

// The master releases the line to send a 1.
fn code(code: u8, bit: bool) -> u8 {
    if bit && code == 0 { 1 } else { code }
}
