// The functions for C, exported under their names: each calls the function of bagtag that has its name, and says what that one says.
// They stand a second time here, since no crate can stand on a static library, and `promises` stands on that one.
#![tactic(auto)]

ghost use Rattle.std.specs.Prelude.{◌≡◌, length};
ghost use Rattle.bits.specs.Bytes.{Bytes};
ghost use Rattle.dock.specs.Listing.{listing_of};
ghost use Rattle.bagtag.specs.Bagtag.{new_call, NewFits, event_call, EventFits, events_call, EventsFit, list_call, HeadFits};
ghost use Rattle.bagtag.specs.Line.{new_line_call, NewLineFits, line_call, LineFits};

use bagtag::line;

// A new tag. Refused with 3, with 6 for the record's length, with 4 or 5, in that order; where the record's length is right, a refusal
// packs that of all zeros.
#[unsafe(no_mangle)]
pub extern "C" fn bagtag_new(image: &mut [u8], lent: &mut [u8], number: u64, code: u8) -> u8
    ensures value { result ≡ (new_call image.old lent.old number code).number }
    ensures image_after { image.new ≡ (new_call image.old lent.old number code).image }
    ensures lent_after { lent.new ≡ (new_call image.old lent.old number code).lent }
    ensures new_fits { NewFits image.old lent.old number code }
{
    bagtag::bagtag_new(image, lent, number, code)
}

// One event. Refused with 3, 6, 1 or 2, in that order; the line bit is then 1, and nothing else changes.
#[unsafe(no_mangle)]
pub extern "C" fn bagtag_event(
    image: &mut [u8],
    lent: &mut [u8],
    code: u8,
    reading: u16,
    line: &mut u8,
) -> u8
    ensures value { result ≡ (event_call image.old lent.old code reading).number }
    ensures image_after { image.new ≡ (event_call image.old lent.old code reading).image }
    ensures lent_after { lent.new ≡ (event_call image.old lent.old code reading).lent }
    ensures line_after { line.new ≡ (event_call image.old lent.old code reading).line }
    ensures bytes { Bytes lent.old }
    ensures event_fits { EventFits image.old lent.old code reading }
{
    bagtag::bagtag_event(image, lent, code, reading, line)
}

// A list of events. Refused with 17, 3 or 6, in that order, and nothing is done; a word that is no event ends it with 1, and the words
// before it are done.
#[unsafe(no_mangle)]
pub extern "C" fn bagtag_events(
    image: &mut [u8],
    lent: &mut [u8],
    words: &[u16],
    replies: &mut [u8],
    done: &mut usize,
) -> u8
    ensures value { result ≡ (events_call image.old lent.old words.now replies.old).number }
    ensures image_after { image.new ≡ (events_call image.old lent.old words.now replies.old).image }
    ensures lent_after { lent.new ≡ (events_call image.old lent.old words.now replies.old).lent }
    ensures replies_after { replies.new ≡ (events_call image.old lent.old words.now replies.old).replies }
    ensures done_after { done.new ≡ (events_call image.old lent.old words.now replies.old).done }
    ensures bytes { Bytes lent.old }
    ensures events_fit { EventsFit image.old lent.old words.now replies.old }
{
    bagtag::bagtag_events(image, lent, words, replies, done)
}

// The listing of a dump: the temperatures of the entries held, and in `head` what it says of them. Refused with 7, 9 or 8 by the dump's
// lines, then 10, 11 or 12, also 12 if `head` is too short; then no lent byte and no place changes.
#[unsafe(no_mangle)]
pub extern "C" fn bagtag_list(dump: &[u8], temperatures: &mut [i32], head: &mut [u8]) -> u8
    ensures value { result ≡ (list_call dump.now temperatures.old head.old).number }
    ensures temperatures_after { temperatures.new ≡ (list_call dump.now temperatures.old head.old).temperatures }
    ensures head_after { head.new ≡ (list_call dump.now temperatures.old head.old).head }
    ensures head_fits { result ≡ 0 → HeadFits (listing_of dump.now (length temperatures.old)) }
{
    bagtag::bagtag_list(dump, temperatures, head)
}

// A new line. Refused with 14, 3 or 13, with 6 for the records' length, then place by place with 4 or 5; where the records' length is right
// for a count that a line can have, a refusal packs those of all zeros.
#[unsafe(no_mangle)]
pub extern "C" fn bagtag_line_new(
    block: &mut [u8],
    records: &mut [u8],
    numbers: &[u64],
    codes: &[u8],
) -> u8
    ensures value { result ≡ (new_line_call block.old records.old numbers.now codes.now).number }
    ensures block_after { block.new ≡ (new_line_call block.old records.old numbers.now codes.now).block }
    ensures records_after { records.new ≡ (new_line_call block.old records.old numbers.now codes.now).records }
    ensures new_line_fits { NewLineFits block.old records.old numbers.now codes.now }
{
    line::bagtag_line_new(block, records, numbers, codes)
}

// One event of a line. Refused with 14, 3, 13, 6, 1 or 2, in that order; the line bit is then 1, and nothing else changes.
#[unsafe(no_mangle)]
pub extern "C" fn bagtag_line_event(
    block: &mut [u8],
    records: &mut [u8],
    count: u8,
    code: u8,
    place: u8,
    reading: u16,
    line: &mut u8,
) -> u8
    ensures value { result ≡ (line_call block.old records.old count code place reading).number }
    ensures block_after { block.new ≡ (line_call block.old records.old count code place reading).block }
    ensures records_after { records.new ≡ (line_call block.old records.old count code place reading).records }
    ensures line_after { line.new ≡ (line_call block.old records.old count code place reading).line }
    ensures bytes { Bytes records.old }
    ensures line_fits { LineFits block.old records.old count code place reading }
{
    line::bagtag_line_event(block, records, count, code, place, reading, line)
}
