// A line's records as bytes: side by side, 80 each as `packing` has them, which a caller that knows no struct keeps and lends. Every
// function answers a slice of any length.
#![tactic(auto)]

ghost use Rattle.std.specs.Prelude.{◌≡◌};
ghost use Rattle.std.proofs.lemmas.List.Edits.{sets};
ghost use Rattle.packing.specs.Packing.{packed, Fits, unpacked};
ghost use Rattle.rack.specs.Rack.{has_room, record_at, is_rack, board_in, number_held, whole_in, same_held, rack_of, AllFit};

use board::Board;
use packing::RECORD;
use record::Tag;
use std::array;

// Whether a line can have so many tags, and so many bytes are their records.
#[tactic(auto, unfolding(crate::specs::Rack::has_room, board::specs::Board::is_count))]
pub fn has_room(size: usize, count: usize) -> bool
    ensures { result ≡ has_room size count }
{
    1 <= count && count <= 7 && size == count * RECORD
}

// Whether these bytes are so many records side by side, each as some record packs to.
pub fn is_rack(records: &[u8], count: u8) -> bool
    ensures { result ≡ is_rack records.now count }
{
    records.len() == usize::from(count) * RECORD
        && records.chunks_exact(RECORD).all(packing::is_packed)
}

// The line that these bytes stand for. A place whose record is not wholly there has that of all zeros.
#[tactic(auto, unfolding(crate::specs::Rack::board_in))]
pub fn unpack(records: &[u8], count: u8) -> Board
    ensures { result ≡ board_in records.now count }
{
    // Over the records that are there alone: `array::from_fn` clears and copies all seven once more, which is two fifths of the time of an event
    // of one tag.
    let mut tags = [record::fresh(0, 0); 7];
    for place in 0..whole(records.len(), 7) {
        tags[place] = tag_at(records, place as u8);
    }
    Board { tags, count }
}

fn tag_at(records: &[u8], place: u8) -> Tag
    ensures { result ≡ unpacked (record_at records.now place) }
{
    let from = usize::from(place) * RECORD;
    match records.get(from..from + RECORD) {
        Some(bytes) => packing::unpack(bytes),
        None => record::fresh(0, 0),
    }
}

// Whether two of the numbers are the same, as they stand in the records that are wholly there, good or not.
pub fn same_number(records: &[u8], count: u8) -> bool
    ensures { result ≡ same_held records.now count }
{
    let numbers: [u64; 7] = array::from_fn(|place| number_at(records, place as u8));
    let end = whole(records.len(), count);
    board::same_number(&numbers[..end])
}

#[tactic(auto, unfolding(crate::specs::Rack::number_held))]
fn number_at(records: &[u8], place: u8) -> u64
    ensures { result ≡ number_held records.now place }
{
    image::word(records, usize::from(place) * RECORD + 24, 8)
}

// How many of the records that a count speaks of are wholly there. More than seven count for seven, so that no chip divides 64 bits.
fn whole(size: usize, count: u8) -> usize
    ensures { result ≡ whole_in size count }
{
    let few = size.min(7 * RECORD) as u16;
    board::places(count).min(usize::from(few / 80))
}

// Packs a line's records into the first bytes lent; bytes past them stay, and what a shorter slice has no room for is left out. By place,
// which is the record's and, times 80, its bytes'.
pub fn pack(records: &mut [u8], board: Board)
    ensures records_after { records.new ≡ sets records.old 0 (rack_of board) }
    ensures all_fit { AllFit board }
{
    for place in 0..board::places(board.count) {
        pack_from(records, place * RECORD, board.tags[place]);
    }
}

// Packs a record from a byte on.
fn pack_from(records: &mut [u8], at: usize, tag: Tag)
    ensures records_after { records.new ≡ sets records.old at (packed tag) }
    ensures fits { Fits tag }
{
    let from = at.min(records.len());
    packing::pack(&mut records[from..], tag);
}
