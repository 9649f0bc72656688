// What every call of the tag and of the dock answers: accepted, or a refusal that says why not. One list for both, in the order of
// document 01's table and of the numbers that the change requests add to it.
#![tactic(auto)]

ghost use Rattle.std.specs.Prelude.{◌≡◌};
ghost use Rattle.answer.specs.Answer.{refusal_number, answer_number, refusal_text};

#[derive(Clone, Copy, PartialEq, Eq)]
pub enum Refusal {
    // An event code above 4, or a list's word that is no event.
    EventCode = 1,
    // A tick with a reading above 2047.
    Reading = 2,
    // An image length that is not 8,832.
    ImageLength = 3,
    // A new tag whose first ROM byte is not 41h, or whose CRC-8 is wrong.
    RomNumber = 4,
    // A new tag whose configuration code is not 40h or 60h.
    Configuration = 5,
    // A record that breaks its ranges.
    RecordRange = 6,
    // A dump that is not 18,834 bytes, or a line that is not 72 digits and a line feed.
    DumpForm = 7,
    // A dump line whose CRC is wrong.
    LineCrc = 8,
    // A dump line with another page than its place asks.
    LinePage = 9,
    // A dump in which MEMCLR is 1.
    Cleared = 10,
    // A dump with a bad code, rate 0, ETL 0, or counts that can't be.
    Counts = 11,
    // Fewer places lent for temperatures than entries held.
    Places = 12,
    // Two tags on a line with the same number.
    SameNumber = 13,
    // A line of no tag or of more than seven, or a tick for a place that has none.
    TagPlace = 14,
    // Fewer reply bytes lent than the list has words.
    Replies = 17,
}

// The number that document 01, or a change request, gives the answer.
pub fn number(answer: Result<(), Refusal>) -> u8
    ensures { result ≡ answer_number answer }
{
    match answer {
        Ok(()) => 0,
        Err(refusal) => u8::from(refusal),
    }
}

impl From<Refusal> for u8 {
    ghost from_gives = { λ refusal number. number ≡ refusal_number refusal };

    fn from(refusal: Refusal) -> u8 {
        refusal as u8
    }
}

// What a refusal prints: R, its number in two decimal digits, and a line feed. Of any number, as `promises` `Demand1` speaks of it.
pub fn refusal_text(number: u8) -> [u8; 4]
    ensures { result ≡ refusal_text number }
{
    [b'R', b'0' + number / 10, b'0' + number % 10, b'\n']
}
