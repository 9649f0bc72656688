// A list of events as a line of text, and whether one call with it does what the line says.
use crate::session::{number, value};
use answer::Refusal;
use image::peek;
use record::Tag;

// Gives the words to the tag in one call, and compares what it leaves with the line's eight digits and its reply bytes.
pub(crate) fn play(tag: &mut Tag, image: &mut [u8], text: &[u8]) -> bool {
    let head = value(text, 1, 8);
    let count = (head / 0x1000000 % 32) as usize;
    let lent = (head / 0x10000 % 32) as usize;
    let words = words_at(text);
    let mut replies = [0x77u8; 32];
    let short = usize::from(peek(text, 0) == b'I');
    let length = image.len().saturating_sub(short);
    let played = batch::events(
        &mut image[..length],
        *tag,
        &words[..count],
        &mut replies[..lent],
    );
    *tag = played.tag;
    number(text, 1, 8) == Some(head)
        && is_answer(head, played.answer, played.done)
        && are(&replies[..lent], text, 12 + 5 * count)
}

// The words behind the eight digits. What is no number is FFFFh, which is refused.
fn words_at(text: &[u8]) -> [u16; 32] {
    let mut words = [0xFFFFu16; 32];
    for (i, word) in words.iter_mut().enumerate() {
        *word = match number(text, 10 + 5 * i, 4) {
            Some(n) => (n % 0x10000) as u16,
            None => 0xFFFF,
        };
    }
    words
}

// Whether the eight digits say so. A line has room for 31 words and 31 reply bytes.
fn is_answer(head: u32, answer: Result<(), Refusal>, done: usize) -> bool {
    let counts = head / 0x1000000 < 32 && head / 0x10000 % 256 < 32;
    counts && head % 0x10000 == u32::from(answer::number(answer)) * 256 + (done % 256) as u32
}

// Whether the reply bytes are those that stand in the text from a place on.
fn are(replies: &[u8], text: &[u8], at: usize) -> bool {
    let mut same = true;
    for (i, reply) in replies.iter().enumerate() {
        same = same
            & (number(text, at.saturating_add(i.saturating_mul(3)), 2) == Some(u32::from(*reply)));
    }
    same
}
