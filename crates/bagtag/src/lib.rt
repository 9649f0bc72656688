// The library for C, which bagtag_c exports: the tag's and the dock's calls on numbers and lent bytes alone, with the record packed into
// 80 of them. Each answers whatever it is given, by document 01's numbers; include/bagtag.h says it to who calls. Beside its equations a
// contract says what the types do: that the record's slice is of bytes, and that the record it leaves fits them. So a refusal that packs it
// again changes no byte. Numbers for refusals, a number beside `*line` or `*done`, and slices side by side are the interface of C.
#![tactic(auto)]

ghost use Rattle.std.specs.Prelude.{◌≡◌, length};
ghost use Rattle.std.proofs.lemmas.List.Edits.{sets};
ghost use Rattle.bits.specs.Bytes.{Bytes};
ghost use Rattle.packing.specs.Packing.{bytes_of, AllFit};
ghost use Rattle.dock.specs.Listing.{listing_of};
ghost use Rattle.bagtag.specs.Bagtag.{new_call, NewFits, event_call, EventFits, events_call, EventsFit, list_call, room_number, head_of, HeadFits, counts_of};

use answer::Refusal;
use dock::Listing;

pub mod line;

const IMAGE: usize = 8832;

// What a listing's head takes.
const HEAD: usize = 28;

// A new tag. Refused with 3, with 6 for the record's length, with 4 or 5, in that order; where the record's length is right, a refusal
// packs that of all zeros.
#[tactic(auto, using(crate::specs::Bagtag::Laws::fills), unfolding(crate::specs::Bagtag::new_call))]
pub fn bagtag_new(image: &mut [u8], lent: &mut [u8], number: u64, code: u8) -> u8
    ensures value { result ≡ (new_call image.old lent.old number code).number }
    ensures image_after { image.new ≡ (new_call image.old lent.old number code).image }
    ensures lent_after { lent.new ≡ (new_call image.old lent.old number code).lent }
    ensures new_fits { NewFits image.old lent.old number code }
{
    if lent.len() != packing::RECORD {
        if image.len() != IMAGE {
            return u8::from(Refusal::ImageLength);
        }
        return u8::from(Refusal::RecordRange);
    }
    let made = tag::new(image, number, code);
    packing::pack(lent, made.tag);
    answer::number(made.answer)
}

// One event. Refused with 3, 6, 1 or 2, in that order; the line bit is then 1, and nothing else changes.
#[tactic(auto, using(crate::specs::Bagtag::Laws::fills, packing::specs::Packing::Laws::own_of), unfolding(crate::specs::Bagtag::event_call))]
pub fn bagtag_event(image: &mut [u8], lent: &mut [u8], code: u8, reading: u16, line: &mut u8) -> u8
    ensures value { result ≡ (event_call image.old lent.old code reading).number }
    ensures image_after { image.new ≡ (event_call image.old lent.old code reading).image }
    ensures lent_after { lent.new ≡ (event_call image.old lent.old code reading).lent }
    ensures line_after { line.new ≡ (event_call image.old lent.old code reading).line }
    ensures bytes { Bytes lent.old }
    ensures event_fits { EventFits image.old lent.old code reading }
{
    *line = 1;
    if image.len() != IMAGE {
        return u8::from(Refusal::ImageLength);
    }
    if !packing::is_packed(lent) {
        return u8::from(Refusal::RecordRange);
    }
    let answered = tag::event(image, packing::unpack(lent), code, reading);
    packing::pack(lent, answered.tag);
    *line = bits::digit(answered.line);
    answer::number(answered.answer)
}

// A list of events. Refused with 17, 3 or 6, in that order, and nothing is done; a word that is no event ends it with 1, and the words
// before it are done.
#[tactic(auto, unfolding(crate::specs::Bagtag::events_call))]
pub fn bagtag_events(
    image: &mut [u8],
    lent: &mut [u8],
    words: &[u16],
    replies: &mut [u8],
    done: &mut usize,
) -> u8
    ensures value { result ≡ (events_call image.old lent.old words.now replies.old).number }
    ensures image_after { image.new ≡ (events_call image.old lent.old words.now replies.old).image }
    ensures lent_after { lent.new ≡ (events_call image.old lent.old words.now replies.old).lent }
    ensures replies_after { replies.new ≡ (events_call image.old lent.old words.now replies.old).replies }
    ensures done_after { done.new ≡ (events_call image.old lent.old words.now replies.old).done }
    ensures bytes { Bytes lent.old }
    ensures events_fit { EventsFit image.old lent.old words.now replies.old }
{
    *done = 0;
    if replies.len() < words.len() {
        return u8::from(Refusal::Replies);
    }
    if image.len() != IMAGE {
        return u8::from(Refusal::ImageLength);
    }
    if !packing::is_packed(lent) {
        return u8::from(Refusal::RecordRange);
    }
    let left = batch::events(image, packing::unpack(lent), words, replies);
    packing::pack(lent, left.tag);
    *done = left.done;
    answer::number(left.answer)
}

// The listing of a dump: the temperatures of the entries held, and in `head` what it says of them. Refused with 7, 9 or 8 by the dump's
// lines, then 10, 11 or 12, also 12 if `head` is too short; then no lent byte and no place changes.
#[tactic(auto, using(crate::specs::Bagtag::Laws::room_not_zero, crate::specs::Bagtag::Laws::list_short, crate::specs::Bagtag::Laws::list_accepted, crate::specs::Bagtag::Laws::list_refused, dock::specs::Listing::Laws::answer_listing))]
pub fn bagtag_list(dump: &[u8], temperatures: &mut [i32], head: &mut [u8]) -> u8
    ensures value { result ≡ (list_call dump.now temperatures.old head.old).number }
    ensures temperatures_after { temperatures.new ≡ (list_call dump.now temperatures.old head.old).temperatures }
    ensures head_after { head.new ≡ (list_call dump.now temperatures.old head.old).head }
    ensures head_fits { result ≡ 0 → HeadFits (listing_of dump.now (length temperatures.old)) }
{
    if head.len() < HEAD {
        return short_head(dump);
    }
    let listing = dock::list_dump(dump, temperatures);
    if listing.answer.is_ok() {
        put_head(head, listing);
    }
    answer::number(listing.answer)
}

// The number of a dump for which `head` is too short: with no place lent either, a dump that is to be listed has 12 or 0.
fn short_head(dump: &[u8]) -> u8
    ensures { result ≡ room_number dump.now 0 }
{
    let listing = dock::list_dump(dump, &mut []);
    match listing.answer {
        Ok(()) => u8::from(Refusal::Places),
        Err(refusal) => u8::from(refusal),
    }
}

// What a listing says, low byte first: code, 0, stamp, entries held, first entry, its seconds, period.
#[tactic(auto, using(crate::specs::Bagtag::Laws::head_stored))]
fn put_head(head: &mut [u8], listing: Listing)
    ensures head_after { head.new ≡ sets head.old 0 (head_of listing) }
    ensures head_fits { HeadFits listing }
{
    let stamp = listing.stamp;
    packing::put(head, 0, &[listing.code, 0]);
    packing::put(head, 2, &stamp);
    put_counts(head, listing);
}

// The numbers behind the stamp.
fn put_counts(head: &mut [u8], listing: Listing)
    ensures head_after { head.new ≡ sets head.old 8 (bytes_of (counts_of listing)) }
    ensures all_fit { AllFit (counts_of listing) }
{
    image::put_word(head, 8, 4, listing.held as u64);
    image::put_word(head, 12, 4, listing.first as u64);
    image::put_word(
        head,
        16,
        8,
        text::twos_complement(dock::seconds(listing, 0)),
    );
    image::put_word(head, 24, 4, dock::period(listing.rate, listing.ehss) as u64);
}
