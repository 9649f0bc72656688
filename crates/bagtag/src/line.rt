// Several tags on one line, for C: their images in one lent block, their records side by side in lent bytes. A contract says what the types
// do here too.
ghost use Rattle.std.specs.Prelude.{◌≡◌};
ghost use Rattle.answer.specs.Answer.{answer_number};
ghost use Rattle.bits.specs.Bytes.{Bytes};
ghost use Rattle.bagtag.specs.Line.{short_number, new_line_call, NewLineFits, line_call, LineFits};

use answer::Refusal;
use board::Board;

// A new line. Refused with 14, 3 or 13, with 6 for the records' length, then place by place with 4 or 5; where the records' length is right
// for a count that a line can have, a refusal packs those of all zeros.
#[tactic(auto, using(rack::specs::Rack::Back::fills, rack::specs::Rack::Laws::room, board::specs::Board::Laws::counted), unfolding(crate::specs::Line::new_line_call))]
pub fn bagtag_line_new(block: &mut [u8], records: &mut [u8], numbers: &[u64], codes: &[u8]) -> u8
    ensures value { result ≡ (new_line_call block.old records.old numbers.now codes.now).number }
    ensures block_after { block.new ≡ (new_line_call block.old records.old numbers.now codes.now).block }
    ensures records_after { records.new ≡ (new_line_call block.old records.old numbers.now codes.now).records }
    ensures new_line_fits { NewLineFits block.old records.old numbers.now codes.now }
{
    if !rack::has_room(records.len(), numbers.len()) {
        return short_number(board::judge_new(block.len(), numbers, codes));
    }
    let shown = board::new(block, numbers, codes);
    let board = Board {
        count: numbers.len() as u8,
        ..shown.board
    };
    rack::pack(records, board);
    answer::number(shown.answer)
}

// The number of a new line whose records have another length: 6 stands before 4 and 5.
#[tactic(auto, unfolding(crate::specs::Line::short_number))]
fn short_number(answer: Result<(), Refusal>) -> u8
    ensures { result ≡ short_number (answer_number answer) }
{
    match answer {
        Ok(()) | Err(Refusal::RomNumber | Refusal::Configuration) => u8::from(Refusal::RecordRange),
        Err(refusal) => u8::from(refusal),
    }
}

// One event of a line. Refused with 14, 3, 13, 6, 1 or 2, in that order; the line bit is then 1, and nothing else changes.
#[tactic(auto, unfolding(crate::specs::Line::line_call))]
pub fn bagtag_line_event(
    block: &mut [u8],
    records: &mut [u8],
    count: u8,
    code: u8,
    place: u8,
    reading: u16,
    line: &mut u8,
) -> u8
    ensures value { result ≡ (line_call block.old records.old count code place reading).number }
    ensures block_after { block.new ≡ (line_call block.old records.old count code place reading).block }
    ensures records_after { records.new ≡ (line_call block.old records.old count code place reading).records }
    ensures line_after { line.new ≡ (line_call block.old records.old count code place reading).line }
    ensures bytes { Bytes records.old }
    ensures line_fits { LineFits block.old records.old count code place reading }
{
    *line = 1;
    if !rack::is_rack(records, count) {
        let same = rack::same_number(records, count);
        return answer::number(board::judge(count, block.len(), same, false, code, place, reading));
    }
    let shown = board::event(block, rack::unpack(records, count), code, place, reading);
    if shown.answer.is_ok() {
        rack::pack(records, shown.board);
        *line = bits::digit(shown.line);
    }
    answer::number(shown.answer)
}
