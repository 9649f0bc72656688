// Several tags on one line: up to seven records with a count, and one lent block in which each tag has its image. A slot or a reset goes
// to all of them, and the line bit is the AND of theirs; a tick goes to the tag at its place. All is judged before anything is done: so a
// refusal changes nothing, wherever the fault stands.
//
// Numbers and codes are two slices, as C lends them (include/bagtag.h); code, place and reading are document 01's numbers, one by one as a group
// of bytes or C has them, and any may come.
// What is written is written by place: a record, its number and its part of the block have the same, and slices side by side would say less.
#![tactic(auto)]

ghost use Rattle.std.specs.Prelude.{◌≡◌, length, get_or};
ghost use Rattle.board.specs.Board.{is_count, names_none, is_high, same_number, judged_by, line_step, new_fault, new_judged, new_line};
ghost use Rattle.board.specs.Board.Laws.{places_of, heard};
ghost use Rattle.board.specs.Board.Numbers.{stands_in};

use answer::Refusal;
use record::{Answered, Tag};

// What a tag's image takes of the block.
const IMAGE: usize = 8832;

// A line's records; those from the count on are not looked at. A count beside an array, since the project has fixed memory and no heap. The
// records come first, since the compiler then copies them once less on their way in and out of an event (bench/README.md).
#[derive(Clone, Copy)]
pub struct Board {
    pub tags: [Tag; 7],
    pub count: u8,
}

// What a call answers: the line's records, accepted or a refusal, and the line bit. A refusal has records and bit too, "a refusal changes no
// tag" (request #106): so they stand beside the result, and not in its `Ok`.
#[derive(Clone, Copy)]
pub struct Shown {
    pub board: Board,
    pub answer: Result<(), Refusal>,
    pub line: bool,
}

// A new line: a tag with this number and this code at each place. Each clears its part of the block, and waits for a reset. Refused with
// 14, 3 or 13, then place by place with 4 or 5; the line then has no tags.
pub fn new(block: &mut [u8], numbers: &[u64], codes: &[u8]) -> Shown
    ensures value { result ≡ (new_line block.old numbers.now codes.now).shown }
    ensures block_after { block.new ≡ (new_line block.old numbers.now codes.now).block }
{
    let none = record::fresh(0, 0);
    let mut tags = [none; 7];
    if let Err(refusal) = judge_new(block.len(), numbers, codes) {
        return Shown {
            board: Board { tags, count: 0 },
            answer: Err(refusal),
            line: true,
        };
    }
    for (i, &number) in numbers.iter().enumerate() {
        let from = i * IMAGE;
        let made = tag::new(
            &mut block[from..from + IMAGE],
            number,
            image::peek(codes, i),
        );
        tags[i] = made.tag;
    }
    Shown {
        board: Board {
            tags,
            count: numbers.len() as u8,
        },
        answer: Ok(()),
        line: true,
    }
}

// One event: a slot or a reset goes to every tag, a tick to the one at its place. Refused with 14, 3, 13, 6, 1 or 2, in that order.
pub fn event(block: &mut [u8], board: Board, code: u8, place: u8, reading: u16) -> Shown
    ensures value { result ≡ (line_step block.old board code place reading).shown }
    ensures block_after { block.new ≡ (line_step block.old board code place reading).block }
{
    let count = board.count;
    let mut tags = board.tags;
    let mut numbers = [0u64; 7];
    let mut good = true;
    let end = places(count);
    for i in 0..end {
        numbers[i] = tags[i].exchange.number;
        good &= record::in_range(tags[i]);
    }
    let same = same_number(&numbers[..end]);
    let answer = judge(count, block.len(), same, good, code, place, reading);
    let mut line = true;
    if answer.is_ok() {
        if code == 3 {
            let at = place as usize;
            let from = at * IMAGE;
            let answered = event::tick(&mut block[from..from + IMAGE], tags[at], reading);
            tags[at] = answered.tag;
            line = answered.line;
        } else {
            for at in 0..count as usize {
                let from = at * IMAGE;
                let answered = hear(&mut block[from..from + IMAGE], tags[at], code);
                tags[at] = answered.tag;
                line &= answered.line;
            }
        }
    }
    Shown {
        board: Board { tags, count },
        answer,
        line,
    }
}

// How many of the seven records a count speaks of.
#[tactic(auto, unfolding(crate::specs::Board::Laws::places_of))]
pub fn places(count: u8) -> usize
    ensures { result ≡ places_of count }
{
    usize::from(count).min(7)
}

// Whether two of these are the same.
pub fn same_number(numbers: &[u64]) -> bool
    ensures { result ≡ same_number (length numbers.now) (λ i. get_or numbers.now i 0) }
{
    for (i, &number) in numbers.iter().enumerate() {
        if stands_in(&numbers[..i], number) {
            return true;
        }
    }
    false
}

// Whether a number is one of these.
#[tactic(auto, unfolding(crate::specs::Board::Numbers::stands_in))]
fn stands_in(numbers: &[u64], number: u64) -> bool
    ensures { result ≡ stands_in numbers.now number }
{
    numbers.contains(&number)
}

// The answer to an event, once it is known whether two numbers are the same and all records keep to their ranges.
#[tactic(auto, unfolding(crate::specs::Board::judged_by))]
pub fn judge(
    count: u8,
    size: usize,
    same: bool,
    good: bool,
    code: u8,
    place: u8,
    reading: u16,
) -> Result<(), Refusal>
    ensures { result ≡ judged_by count size same good code place reading }
{
    if !is_count(count as usize) {
        return Err(Refusal::TagPlace);
    }
    if names_none(count, code, place) {
        return Err(Refusal::TagPlace);
    }
    if size != count as usize * IMAGE {
        return Err(Refusal::ImageLength);
    }
    if same {
        return Err(Refusal::SameNumber);
    }
    if !good {
        return Err(Refusal::RecordRange);
    }
    if 4 < code {
        return Err(Refusal::EventCode);
    }
    if is_high(code, reading) {
        return Err(Refusal::Reading);
    }
    Ok(())
}

// The answer to a new line.
#[tactic(auto, unfolding(crate::specs::Board::new_judged))]
pub fn judge_new(size: usize, numbers: &[u64], codes: &[u8]) -> Result<(), Refusal>
    ensures { result ≡ new_judged size numbers.now codes.now }
{
    if !is_count(numbers.len()) {
        return Err(Refusal::TagPlace);
    }
    if codes.len() != numbers.len() {
        return Err(Refusal::TagPlace);
    }
    if size != numbers.len() * IMAGE {
        return Err(Refusal::ImageLength);
    }
    if same_number(numbers) {
        return Err(Refusal::SameNumber);
    }
    fault(numbers, codes)
}

// The first fault of a number or a code, place by place.
fn fault(numbers: &[u64], codes: &[u8]) -> Result<(), Refusal>
    ensures { result ≡ new_fault numbers.now codes.now 0 (length numbers.now) }
{
    for (i, &number) in numbers.iter().enumerate() {
        if !record::good_number(number) {
            return Err(Refusal::RomNumber);
        }
        if !record::good_code(image::peek(codes, i)) {
            return Err(Refusal::Configuration);
        }
    }
    Ok(())
}

// Whether a line can have so many tags.
#[tactic(auto, unfolding(crate::specs::Board::is_count))]
fn is_count(count: usize) -> bool
    ensures { result ≡ is_count count }
{
    1 <= count && count <= 7
}

// Whether an event is a tick for a place that has no tag.
#[tactic(auto, unfolding(crate::specs::Board::names_none))]
fn names_none(count: u8, code: u8, place: u8) -> bool
    ensures { result ≡ names_none count code place }
{
    code == 3 && count <= place
}

// Whether it is a tick whose reading is too high.
#[tactic(auto, unfolding(crate::specs::Board::is_high))]
fn is_high(code: u8, reading: u16) -> bool
    ensures { result ≡ is_high code reading }
{
    code == 3 && 2047 < reading
}

// A slot or a reset of one tag. By the code, as `tag::event`: it judges none, since the line is judged whole.
#[tactic(auto, unfolding(crate::specs::Board::Laws::heard, event::specs::Event::reset_tag, event::specs::Event::short_tag))]
fn hear(image: &mut [u8], tag: Tag, code: u8) -> Answered
    ensures value { result ≡ (heard image.old tag code).answered }
    ensures image_after { image.new ≡ (heard image.old tag code).image }
{
    match code {
        0 | 1 => event::slot(image, tag, code == 1),
        2 => event::reset(tag),
        _ => event::short_reset(tag),
    }
}
