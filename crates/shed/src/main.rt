// Plays events to a new line of several tags and prints the line bits: `play` for a board in a shed. Standard input: the count; for
// each tag eight ROM bytes and the code; then four bytes an event. Standard output is as that of `play`.
#![tactic(auto)]

ghost use Rattle.std.specs.Prelude.{◌≡◌, min, length};
ghost use Rattle.std.proofs.Common.{rules, refl};
ghost use Rattle.shed.specs.Shed.{reply_of, session_of};

use answer::Refusal;
use board::Board;
use console::Plays;
use std::io::{Stdin, Stdout};

// A line of several tags, whose events are four bytes: code, place, reading high, low.
struct Shed {}

impl Plays<4> for Shed {
    type Record = Board;

    ghost reply = { reply_of };

    ghost session = { session_of };

    ghost grouped = { λ lent back input. refl };

    ghost sized = { (Prim.search rules, Prim.search rules) };

    #[tactic(auto, unfolding(crate::specs::Shed::reply_of))]
    fn event(board: &mut Board, block: &mut [u8], group: &[u8; 4]) -> Result<bool, Refusal> {
        let [code, place, high, low] = *group;
        let reading = console::reading_of(high, low);
        let shown = board::event(block, *board, code, place, reading);
        *board = shown.board;
        shown.answer?;
        Ok(shown.line)
    }
}

fn main(rt: HostRuntime) {
    // A missing byte stays 00h.
    let mut count = [0u8; 1];
    console::read_full(rt.stdin(), &mut count);
    // Of more than seven tags eight heads are read: such a line is refused for its count alone.
    let mut numbers = [0u64; 8];
    let mut codes = [0u8; 8];
    let heads = read_heads(rt.stdin(), count[0], &mut numbers, &mut codes);
    let mut block = [0u8; 7 * 8832];
    let lent = heads.min(7) * 8832;
    begin(
        rt.stdin(),
        rt.stdout(),
        &mut block[..lent],
        &numbers[..heads],
        &codes[..heads],
    );
}

// Reads the heads of so many tags, eight ROM bytes and the code each, as far as there are places for their numbers, and returns how many it
// has read. Numbers and codes stand in two slices, as `board::new` takes them.
fn read_heads(stdin: Stdin, count: u8, numbers: &mut [u64], codes: &mut [u8]) -> usize
    ensures { result ≡ min count (length numbers.old) }
{
    let places = numbers.len().min(usize::from(count));
    let mut heads = 0;
    for number in numbers[..places].iter_mut() {
        let mut head = [0u8; 9];
        console::read_full(stdin, &mut head);
        *number = image::word(&head, 0, 8);
        image::poke(codes, heads, head[8]);
        heads += 1;
    }
    heads
}

// A new line, and the events that come for it.
fn begin(stdin: Stdin, stdout: Stdout, block: &mut [u8], numbers: &[u64], codes: &[u8]) {
    let made = board::new(block, numbers, codes);
    if !console::refused(stdout, made.answer) {
        let mut board = made.board;
        console::play::<4, Shed>(stdin, stdout, &mut board, block);
    }
}
