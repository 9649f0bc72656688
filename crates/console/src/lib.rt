// What the programs that play events share: a session over whole groups of bytes from standard input, for whatever takes an event, the
// text of an answer, and printing it.
#![tactic(auto)]

ghost use Rattle.std.specs.Prelude.{true, not, [], ◌≡◌, ◌≤◌, ◌+◌, ◌%◌, ℕ, List, is_ok, eqb, length, take};
ghost use Rattle.std.proofs.lemmas.List.Edits.{sets};
ghost use Rattle.answer.specs.Answer.{answer_number};
ghost use Rattle.console.specs.Console.{begun_in, groups_in, Behind, Reply, Session, Answers, Leaves, played, reading_of, reply_text};

use answer::Refusal;
use std::io::{Print, Read, Stdin, Stdout};

// How a program takes events, each a group of N bytes: by a record that goes in and comes back, and bytes lent to it.
pub trait Plays<const N: usize> {
    // A tag's record, or a line's.
    type Record;

    // What an event of a group answers and leaves.
    ghost reply: { List ℕ → Self.Record → List ℕ → Reply Self.Record };

    // What the events of an input leave, in the program's own words.
    ghost session: { List ℕ → Self.Record → List ℕ → Session Self.Record };

    // The line bit, or why the event is refused.
    fn event(back: &mut Self::Record, lent: &mut [u8], group: &[u8; N]) -> Result<bool, Refusal>
        ensures answer { Answers (reply lent.old back.old group.now) result }
        ensures back_after { back.new ≡ (reply lent.old back.old group.now).back }
        ensures lent_after { lent.new ≡ (reply lent.old back.old group.now).lent };

    // They are of N bytes each, one after the other, and a short last group is dropped.
    ghost grouped: { (lent : List ℕ) (back : Self.Record) (input : List ℕ) → session lent back input ≡ played reply lent back (groups_in N input) };

    // A group is no shorter than a line bit's text, and no longer than what is read at once.
    ghost sized: { (2 ≤ N) × (N ≤ 65536) };
}

// How a session went: how many bytes it prints, and the refusal that ended it, if one did. What is printed counts at a refusal too, and so
// stands beside the answer.
#[derive(Clone, Copy)]
struct Played {
    printed: usize,
    answer: Result<(), Refusal>,
}

// Each turn reads once, and prints the answers to the whole groups that are then held. So a group is answered before the next
// read that could wait, and the bytes of one that has only begun stay for the next turn. A proved loop has to end, and nothing
// says that the input does: so the turns are counted, up to a number that no run reaches. There is no heap: so both buffers are arrays,
// and how much they hold stands beside them.
pub fn play<const N: usize, P: Plays<N>>(
    stdin: Stdin,
    stdout: Stdout,
    back: &mut P::Record,
    lent: &mut [u8],
)
    ensures { Leaves P.reply lent.old back.old lent.new back.new }
{
    let mut input = [0u8; 65536];
    let mut out = [0u8; 65536];
    let mut held = 0;
    for _ in 0..u64::MAX {
        let begun = move_begun(&mut input, held, N);
        held = read_behind(stdin, &mut input, begun);
        let played = play_groups::<N, P>(back, lent, &input[..held], &mut out);
        let text = &out[..played.printed.min(65536)];
        if held == begun || !print(stdout, text) || played.answer.is_err() {
            return;
        }
    }
}

// Plays the whole groups. What they print goes to the start of `out`, as much of it as there is room for.
fn play_groups<const N: usize, P: Plays<N>>(
    back: &mut P::Record,
    lent: &mut [u8],
    input: &[u8],
    out: &mut [u8],
) -> Played
    ensures printed { result.printed ≡ length (P.session lent.old back.old input.now).text }
    ensures accepted { is_ok result.answer ≡ (P.session lent.old back.old input.now).accepted }
    ensures back_after { back.new ≡ (P.session lent.old back.old input.now).back }
    ensures lent_after { lent.new ≡ (P.session lent.old back.old input.now).lent }
    ensures out_after { out.new ≡ sets out.old 0 (P.session lent.old back.old input.now).text }
{
    let mut printed = 0;
    let mut rest = input;
    while let Some((group, behind)) = rest.split_first_chunk::<N>() {
        match P::event(back, lent, group) {
            Ok(line) => printed += put_answer(out, printed, Ok(line)),
            Err(refusal) => {
                printed += put_answer(out, printed, Err(u8::from(refusal)));
                return Played {
                    printed,
                    answer: Err(refusal),
                };
            }
        }
        rest = behind;
    }
    Played {
        printed,
        answer: Ok(()),
    }
}

// Moves the bytes behind the whole groups of the input's first `held` bytes, or of all if there are fewer, to its start, and
// returns how many they are. Of groups of no bytes none is ever whole. `held` may be more than there are bytes, of which the clauses speak: so
// it is no slice.
pub fn move_begun(input: &mut [u8], held: usize, size: usize) -> usize
    ensures value { result ≡ length (begun_in size (take held input.old)) }
    ensures input_after { input.new ≡ sets input.old 0 (begun_in size (take held input.old)) }
{
    let end = held.min(input.len());
    let begun = if size == 0 { end } else { end % size };
    input.copy_within(end - begun..end, 0);
    begun
}

// Reads once behind the input's first `begun` bytes, and returns how many bytes it then holds. A full one takes no more.
pub fn read_behind(stdin: Stdin, input: &mut [u8], begun: usize) -> usize
    ensures { Behind input.old begun result input.new }
{
    if begun < input.len() {
        begun + read_into(stdin, &mut input[begun..])
    } else {
        input.len()
    }
}

// Reads until the bytes are full, the input ends or a read fails, and returns how many it put at their start. `read_exact` says nothing
// of how many came before the end.
pub fn read_full(stdin: Stdin, bytes: &mut [u8]) -> usize
    ensures { result ≤ length bytes.old }
{
    let mut done = 0;
    while done < bytes.len() {
        let count = read_into(stdin, &mut bytes[done..]);
        if count == 0 {
            return done;
        }
        done += count;
    }
    done
}

// A read that fails counts as the input's end.
fn read_into(mut stdin: Stdin, bytes: &mut [u8]) -> usize
    ensures { result ≤ length bytes.old }
{
    stdin.read(bytes).unwrap_or(0)
}

// A reading as a group has it, high byte and low byte.
pub fn reading_of(high: u8, low: u8) -> u16
    ensures { result ≡ reading_of high low }
{
    u16::from_be_bytes([high, low])
}

// Puts what an answer prints at a place of `out`, as much of it as there is room for, and returns its length. An answer is the line bit,
// or a refusal's number.
#[tactic(auto, unfolding(crate::specs::Console::bit_text))]
pub fn put_answer(out: &mut [u8], at: usize, answer: Result<bool, u8>) -> usize
    ensures value { result ≡ length (reply_text answer) }
    ensures out_after { out.new ≡ sets out.old at (reply_text answer) }
{
    match answer {
        Ok(line) => put(out, at, &[b'0' + u8::from(line), b'\n']),
        Err(number) => put(out, at, &answer::refusal_text(number)),
    }
}

// Puts a text, as much of it as there is room for, and returns its length.
fn put(out: &mut [u8], at: usize, text: &[u8]) -> usize
    ensures value { result ≡ length text.now }
    ensures out_after { out.new ≡ sets out.old at text.now }
{
    image::put_bytes(out, at, text);
    text.len()
}

// Prints the text, and says whether the output took it. Nothing is always taken.
pub fn print(stdout: Stdout, text: &[u8]) -> bool
    ensures { text.now ≡ [] → result ≡ true }
{
    text.is_empty() || stdout.write_all(text).is_ok()
}

// Prints a refusal, and says whether the answer is one.
pub fn refused(stdout: Stdout, answer: Result<(), Refusal>) -> bool
    ensures { result ≡ not (eqb (answer_number answer) 0) }
{
    match answer {
        Ok(()) => false,
        Err(refusal) => {
            print(stdout, &answer::refusal_text(u8::from(refusal)));
            true
        }
    }
}
